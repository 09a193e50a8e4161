// What is said of a command whose words do not fit: how it is used.
use commands::Name;

pub fn usage(name: Name) -> &'static [u8] {
    match name {
        Name::Publish => b"? use: publish INTO",
        Name::Move => b"? use: move SPACE VARIABLE SHIFT INTO",
        Name::Read => b"? use: read SPACE ROOM ALPHA BETA XI ETA ZETA",
        Name::Floats => b"? use: floats SPACE ALPHA BETA XI ETA ZETA",
        Name::Microradians => b"? use: microradians ROOM ALPHA BETA XI ETA ZETA",
        Name::Many => b"? use: many SPACE STATES COUNT INTO",
        Name::GtmPublish => b"? use: gtm_publish INTO",
        Name::GtmMove => b"? use: gtm_move SPACE VARIABLE SHIFT INTO",
        Name::GtmRead => b"? use: gtm_read SPACE ROOM ALPHA ETA",
        Name::Length => b"? use: length SPACE COUNT",
        Name::Set => b"? use: set SPACE PLACE NUMBER",
        Name::Fill => b"? use: fill SPACE PLACE STEP SIZE SEED",
        Name::Copy => b"? use: copy SPACE INTO",
        Name::Show => b"? use: show SPACE PLACE COUNT",
        Name::Sum => b"? use: sum SPACE",
    }
}
