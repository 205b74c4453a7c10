// The lines of a report: what is said of a cells record that does not read, of the end and of a
// fault.
use decoding::ReadRefusal;
use tray_file::Fault;

/// A cells record that does not read, and why. Its place counts bytes from 0.
#[derive(Clone, Copy)]
pub struct LostLine {
    pub place: usize,
    pub refusal: ReadRefusal,
}

/// How many cells records read, and how many do not.
#[derive(Clone, Copy)]
pub struct EndLine {
    pub read: usize,
    pub lost: usize,
}

/// The fault that ends the file.
#[derive(Clone, Copy)]
pub struct FaultLine {
    pub fault: Fault,
}
