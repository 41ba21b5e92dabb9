// How one transfer takes items.
#[derive(Clone, Copy)]
pub(crate) struct Way {
    // The lanes that may take an element, lane 0 lowest.
    pub allowed: u128,
    // The place of the first item that no lane takes as an element.
    pub stop: usize,
    // The lanes that take the ascending run of ends that comes next, lane 0 lowest.
    pub ends: u128,
    // Whether what is left begins at `stop`, behind the ends there where some lane takes ends.
    pub is_packed: bool,
}
