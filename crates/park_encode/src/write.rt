// The file of a list, written record by record.
ghost use Rattle.std.specs.Prelude.{◌≤◌, length};
ghost use Rattle.park_format.specs.Inner.Stored.{Stored};
ghost use Rattle.park_encode.specs.Encode.{made_file, made_size};

use crate::list::List;
use park_format::records::Records;

// Writes the file of a list at the start of a buffer that has room for it.
pub fn write_park(list: &List<'_>, file: &mut [u8])
    requires { made_size list.now.numbers.now ≤ length file.old }
    ensures { Stored (made_file list.now.numbers.now) 0 file.old file.new }
{
    let header = list.header();
    header.write(file);
    for k in 0..header.sites {
        list.site(k).write(file, header.site_start(k));
    }
    for i in 0..header.lines {
        list.line(i).write(file, header.line_start(i));
    }
}
