// Standard input, output and error that the caller has closed.

use std::fs::{File, Files};

/// Opens a folder in the place of each of standard input, output and error that the caller has closed. While these are
/// held, no file that is opened stands in such a place, and each read and write there fails.
pub fn take_closed<F: Files<File = File>>(files: &F) -> [Option<File>; 3] {
    [open_top(files), open_top(files), open_top(files)]
}

/// The top folder, at the lowest descriptor that is free.
fn open_top<F: Files<File = File>>(files: &F) -> Option<File> {
    File::open(files, "/").ok()
}
