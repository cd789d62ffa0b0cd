// How many places and transitions the records of a file declare, and how many tokens they put on each side.
#[derive(Clone, Copy, PartialEq, Eq, Default, Debug)]
pub struct Counts {
    pub places: usize,
    pub transitions: usize,
    pub left: usize,
    pub right: usize,
}
