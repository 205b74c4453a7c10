// A buffer that is filled from the front, and has room for what is put into it.
ghost use Rattle.std.specs.Prelude.{◌+◌, ◌≤◌, length};
ghost use Rattle.tray_file.specs.number.Numbers.{largest_number, number_bytes};
ghost use Rattle.tray_file.specs.body.NumberLists.{numbers, Small};
ghost use Rattle.tray_file.specs.writer.Pages.{Added};

use crate::number::write_number;

#[derive(Drop)]
pub(crate) struct Page<'a> {
    pub buffer: &'a mut [u8],
    // The place after what was put.
    pub place: usize,
}

impl Page<'_> {
    pub fn put_list(&mut self, list: &[u32])
        requires small { Small list.now }
        requires room { self.old.place + length (numbers list.now) ≤ length self.old.buffer.now }
        ensures { Added (numbers list.now) self.old self.new }
    {
        for value in list {
            self.put_number(*value);
        }
    }

    pub fn put_number(&mut self, value: u32)
        requires small { value ≤ largest_number }
        requires room { self.old.place + length (number_bytes value) ≤ length self.old.buffer.now }
        ensures { Added (number_bytes value) self.old self.new }
    {
        let Ok(end) = write_number(value, self.buffer, self.place) else {
            unreachable()
        };
        self.place = end;
    }

    // Puts bytes as they are.
    pub fn put_bytes(&mut self, bytes: &[u8])
        requires { self.old.place + length bytes.now ≤ length self.old.buffer.now }
        ensures { Added bytes.now self.old self.new }
    {
        let end = self.place + bytes.len();
        self.buffer[self.place..end].copy_from_slice(bytes);
        self.place = end;
    }
}
