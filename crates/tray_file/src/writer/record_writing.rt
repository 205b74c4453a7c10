// Puts one record at the front of a buffer.
ghost use Rattle.std.specs.Prelude.{◌≡◌, ◌+◌, ◌*◌, ◌≤◌, length};
ghost use Rattle.algebra.specs.Limits.{largest_cells};
ghost use Rattle.tray_file.specs.number.Numbers.{largest_number};
ghost use Rattle.tray_file.specs.body.NumberLists.{numbers};
ghost use Rattle.tray_file.specs.body.Notes.{longest_note};
ghost use Rattle.tray_file.specs.reader.RecordKinds.{kind_number};
ghost use Rattle.tray_file.specs.writer.Writing.{NumberRecord, HeaderWritten, RecordWritten, body_numbers, record_header};

use crate::number::number_length;
use crate::reader::Kind;
use crate::writer::page::Page;
use crate::writer::write_refusal::WriteRefusal;

// The numbers of a body: a head, which may be empty, and two lists, which may be too.
#[derive(Clone, Copy)]
pub(crate) struct BodyNumbers<'a> {
    pub head: &'a [u32],
    pub first: &'a [u32],
    pub second: &'a [u32],
}

pub(crate) fn write_numbers(
    kind: Kind,
    body: BodyNumbers<'_>,
    buffer: &mut [u8],
) -> Result<usize, WriteRefusal>
    requires { NumberRecord body }
    ensures { RecordWritten (kind_number kind) (body_numbers body.entry)
        buffer.old buffer.new result }
{
    let size = list_length(body.head) + list_length(body.first) + list_length(body.second);
    let mut page = Page { buffer, place: 0 };
    page.put_header(kind, size)?;
    page.put_list(body.head);
    page.put_list(body.first);
    page.put_list(body.second);
    Ok(page.place)
}

pub(crate) fn write_bytes(kind: Kind, body: &[u8], buffer: &mut [u8]) -> Result<usize, WriteRefusal>
    requires { length body.now ≤ longest_note }
    ensures { RecordWritten (kind_number kind) body.now buffer.old buffer.new result }
{
    let mut page = Page { buffer, place: 0 };
    page.put_header(kind, body.len())?;
    page.put_bytes(body);
    Ok(page.place)
}

// How many bytes a list of numbers is written in.
fn list_length(list: &[u32]) -> usize
    requires { length list.now ≤ largest_cells }
    ensures is { result ≡ length (numbers list.now) }
    ensures bound { result ≤ 3 * largest_cells }
{
    // `sum` would ask for the bound beforehand; the loop carries it.
    let mut size = 0;
    for value in list {
        size += number_length(*value);
    }
    size
}

// How many bytes a record with a body of `size` bytes has.
fn record_size(kind: Kind, size: usize) -> usize
    requires { size ≤ largest_number }
    ensures { result ≡ length (record_header (kind_number kind) size) + size }
{
    number_length(kind.number()) + number_length(size as u32) + size
}

impl Page<'_> {
    // Puts the kind and the body's length at the front, where there is room for the whole record.
    fn put_header(&mut self, kind: Kind, size: usize) -> Result<(), WriteRefusal>
        requires small { size ≤ largest_number }
        requires front { self.old.place ≡ 0 }
        ensures { HeaderWritten (kind_number kind) size self.old self.new result }
    {
        if self.buffer.len() < record_size(kind, size) {
            return Err(WriteRefusal::TooSmall);
        }
        self.put_number(kind.number());
        self.put_number(size as u32);
        Ok(())
    }
}
