/// One of the three files of a disk.
#[derive(Clone, Copy, Debug, PartialEq, Eq)]
pub enum Part {
    Main,
    Spare,
    Selector,
}
