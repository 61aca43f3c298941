// The numbers of a request: as they are filed or stand in a block, and as a job reads them.

// As a job reads them, one that its kind does not use stands as 0 or +0.
#[derive(Clone, Copy)]
pub struct Conditions {
    pub choice: u64,
    pub temperature: f64,
    pub pressure: f64,
    pub start: f64,
}

// The definitions' alone, where the three are lists of any length: as filed, or as a job reads them, rows of 28 with +0 after the numbers
// read. The code reads each number to where the blend has it.
#[derive(Clone, Copy)]
pub struct Numbers {
    pub coefficients: [f64; 28],
    pub interactions: [f64; 28],
    pub fractions: [f64; 28],
    pub conditions: Conditions,
}
