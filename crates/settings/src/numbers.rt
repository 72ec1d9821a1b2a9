// Six numbers that ask to be settings.
#[derive(Clone, Copy, PartialEq, Eq, Debug)]
pub struct Numbers {
    // F, the frames of memory: 1 to 1,024.
    pub frames: u32,
    // L, the pages that make a sequence long: 2 to 4,096.
    pub long: u32,
    // M, how far behind the head of a sequence a page lies that it can supply: 1 to 4,095.
    pub behind: u32,
    // N, the rank from the newest of the fault by which long sequences are ordered: 1 to L.
    pub nth: u32,
    // X, the most sequences that are tracked: 1 to 200.
    pub tracked: u32,
    // K, the pages of the front queue: 0 to 1,024.
    pub front: u32,
}
