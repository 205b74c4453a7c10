// Reads a file to its end.
ghost use Rattle.tray_file.specs.reader.Readers.{FileChecked};

use crate::fault::Fault;
use crate::reader::TrayReader;

/// How many records the file has, or the fault that ends it. Every file has records, one after
/// another, and then its end or a fault: the call reads them all.
pub fn check_file(file: &[u8]) -> Result<usize, Fault>
    ensures { FileChecked file.now result }
{
    let mut reader = TrayReader::new(file);
    let mut records = 0;
    while let Some(answer) = reader.next() {
        answer?;
        records += 1;
    }
    Ok(records)
}
