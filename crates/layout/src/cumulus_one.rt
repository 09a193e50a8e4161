// The Cumulus One table: alpha, beta, xi, eta and zeta are its variables, and X, Y, Z, l, m and n its blocks.
pub const VARIABLES: usize = 5;

pub const BLOCKS: usize = 6;

// Alpha has a fine cut: its cut once more, in thousandths.
pub const FINE_CUTS: usize = 1;

// The limits come first: lowest and highest of each variable, and the cut and the fine cut of alpha.
pub const LIMITS: usize = 1 + FINE_CUTS + 2 * VARIABLES;

// Then the blocks. In a block: the low and the high group in alpha and eta, then the side groups in beta and xi and in beta and zeta.
pub const GROUPS: usize = 4;

pub const PITCH_DEGREE: usize = 3;

pub const SIDE_DEGREE: usize = 4;

const PITCH: usize = (PITCH_DEGREE + 1) * (PITCH_DEGREE + 2) / 2;

pub const SIDE: usize = (SIDE_DEGREE + 1) * (SIDE_DEGREE + 2) / 2;

pub const BLOCK: usize = 2 * PITCH + 2 * SIDE;

pub const TABLE: usize = LIMITS + BLOCK * BLOCKS;
