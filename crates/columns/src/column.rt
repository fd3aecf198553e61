//! A forward column.

/// The state and the symbol that a state's least cost came by.
#[derive(Clone, Copy)]
pub struct Survivor {
    pub state: u8,
    pub symbol: u8,
}

/// What a column has for a state. The greatest number stands for barred.
#[derive(Clone, Copy)]
pub struct Cell {
    pub cost: u32,
    pub history: u8,
    pub survivor: Option<Survivor>,
}

/// The cells of up to sixteen states.
#[derive(Clone, Copy)]
pub struct Column {
    pub cells: [Cell; 16],
}
