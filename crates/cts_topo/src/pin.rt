//! A sink as the division of the sinks sees it.

/// A sink's place, with what orders sinks at one place and what names it.
#[derive(Clone, Copy)]
pub struct Pin {
    /// Its coordinates in nm.
    pub x: u32,
    pub y: u32,
    /// The sink's id.
    pub id: u32,
    /// The sink's place in the list of sinks, from 0.
    pub sink: u32,
}
