// The GTM's longitudinal table: alpha and eta are its variables, and lift, drag and pitching moment its blocks.
pub const VARIABLES: usize = 2;

pub const BLOCKS: usize = 3;

// Alpha has its cut alone.
pub const FINE_CUTS: usize = 0;

pub const LIMITS: usize = 1 + FINE_CUTS + 2 * VARIABLES;

// In a block: the low and the high group in alpha and eta.
pub const GROUPS: usize = 2;

pub const DEGREE: usize = 3;

pub const BLOCK: usize = GROUPS * ((DEGREE + 1) * (DEGREE + 2) / 2);

pub const TABLE: usize = LIMITS + BLOCK * BLOCKS;
