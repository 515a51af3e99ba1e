// A pair of zones.

/// Two zones, the one with the lower number first.
#[derive(Clone, Copy)]
pub struct ZonePair {
    pub from: u32,
    pub to: u32,
}
