// What a call is given, and what it tells of a fragment.
#![tactic(auto)]

// What an opening is given: the block's number and its share.
#[derive(Clone, Copy)]
pub struct Opening {
    pub number: u32,
    pub share: u32,
}

// What a call did with a fragment of a log: how many bytes of it were taken, and how many were written. C is told it as
// it stands here.
#[repr(C)]
#[derive(Clone, Copy)]
pub struct Fed {
    pub taken: usize,
    pub used: usize,
}
