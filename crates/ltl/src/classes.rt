// What is known of a formula at some positions and behind them, one bit for each: bit i of `sure` says that it is known to
// be TRUE at position i, bit i of `lost` that it is known to be FALSE.
#[derive(Debug, Clone, Copy, PartialEq, Eq)]
pub struct Classes {
    // bits and no list: one word holds what is said of at most 25 positions and of those behind them
    pub sure: u32,
    pub lost: u32,
}
