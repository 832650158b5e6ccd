// Numbers of the park file, read and written: unsigned, lowest byte first. Each asks that its bytes lie within the file. They take the file and
// a position, as the definitions of the format do: a slice cut for each number would be no plainer.
ghost use Rattle.std.specs.Prelude.{◌≡◌, ◌+◌, ◌^◌, ◌≤◌, ◌<◌, length};
ghost use Rattle.park_format.specs.Format.{number_at};
ghost use Rattle.park_format.specs.Inner.Stored.{Stored};
ghost use Rattle.park_format.specs.Made.{bytes_of};

// The number in N bytes from a position on.
pub fn read<const N: usize>(file: &[u8], at: usize) -> u32
    requires { (N ≤ 4) × (at + N ≤ length file.now) }
    ensures value { result ≡ number_at N file.now at }
    ensures small { result < 256 ^ N }
{
    let mut number = 0;
    for i in (0..N).rev() {
        number = 256 * number + u32::from(file[at + i]);
    }
    number
}

// Writes the N lowest bytes of a number from a position on.
pub fn write<const N: usize>(file: &mut [u8], at: usize, n: u32)
    requires { at + N ≤ length file.old }
    ensures { Stored (bytes_of N n) at file.old file.new }
{
    let mut rest = n;
    for i in 0..N {
        file[at + i] = (rest % 256) as u8;
        rest /= 256;
    }
}
