// Printing into a room that is lent: all of it, or nothing where it does not fit.
#![tactic(auto)]

ghost use Rattle.std.specs.Prelude.{◌≡◌, ◌++◌, ◌-◌, length, take, replicate};
ghost use Rattle.rooms.specs.inner.Rooms.{said, Prints};

// Bytes over as many others. A loop and no `copy_from_slice`: that calls `memmove`, which the archive for C then needs from outside.
fn copy(room: &mut [u8], bytes: &[u8])
    requires { length room.old ≡ length bytes.now }
    ensures { room.new ≡ bytes.now }
{
    for i in 0..bytes.len() {
        room[i] = bytes[i];
    }
}

// Bytes from a place on, and a line feed after them if it is asked for: the place after all of it, or nothing where it does not fit the room.
pub fn print(room: &mut [u8], at: usize, bytes: &[u8], line: bool) -> Option<usize>
    ensures { Prints (said line bytes.now) room.old at result room.new }
{
    let end = at.checked_add(bytes.len())?;
    if line {
        if room.len() <= end {
            return None;
        }
        copy(&mut room[at..end], bytes);
        room[end] = b'\n';
        return Some(end + 1);
    }
    if room.len() < end {
        return None;
    }
    copy(&mut room[at..end], bytes);
    Some(end)
}

// Zeros from a place on.
pub fn clear_from(room: &mut [u8], at: usize)
    ensures { room.new ≡ take at room.old ++ replicate (length room.old - at) 0 }
{
    if at < room.len() {
        room[at..].fill(0);
    }
}
