// The cases on standard input, one in a line, and a line's numbers.
//
// A field of a line begins after a colon or a semicolon, and a number in it after a blank. A number
// with a sign is kept as its 64 bits.
//
// A line is read into a table with its length beside it, and a list of numbers is one of 24, and neither is text that is
// split: what is no number counts as 0, a number is cut to its table's type, and a line of over 192 bytes goes on as the
// next, on every input.
ghost use Rattle.std.specs.Prelude.{◌≡◌, ◌*◌, ◌≤◌, IfOk, length};

use std::io;
use std::io::Read;

// A byte of the input; after the last, the end of a line.
fn taken(input: &mut impl Read) -> io::Result<u8> {
    let mut b = [b'\n'; 1];
    if input.read(&mut b)? == 0 {
        return Ok(b'\n');
    }
    Ok(b[0])
}

// The next line, without its end, and how long it is: 0 after the last. Where a read fails, the table has its length still.
pub fn take_line(input: &mut impl Read, line: &mut [u8]) -> io::Result<usize>
    ensures within { IfOk result (λ n. n ≤ length line.new) }
    ensures kept { length line.new ≡ length line.old }
{
    for n in 0..line.len() {
        let b = taken(input)?;
        if b == b'\n' {
            return Ok(n);
        }
        line[n] = b;
    }
    Ok(line.len())
}

// Beyond a line's end its last field ends.
fn byte(line: &[u8], at: usize) -> u8 {
    if at < line.len() { line[at] } else { b';' }
}

// The number whose digits begin at `from`.
fn digits(line: &[u8], from: usize) -> u64 {
    let mut x = 0u64;
    for at in from..line.len() {
        let d = line[at].wrapping_sub(b'0');
        if 9 < d {
            return x;
        }
        x = x % 0x1_0000_0000 * 10 + d as u64;
    }
    x
}

fn signed(line: &[u8], at: usize) -> u64 {
    if byte(line, at) == b'-' {
        0u64.wrapping_sub(digits(line, at.wrapping_add(1)))
    } else {
        digits(line, at)
    }
}

// Where field k begins.
pub fn field(line: &[u8], k: u64) -> usize
    ensures { result ≤ length line.now }
{
    let mut left = k;
    for i in 0..line.len() {
        if left == 0 {
            return i;
        }
        let b = line[i];
        if b == b':' || b == b';' {
            left = left.wrapping_sub(1);
        }
    }
    line.len()
}

// A list with one number more, where one begins.
fn put(l: &mut [u64; 24], n: usize, line: &[u8], at: usize) -> usize {
    // a digit or a minus: in ASCII they come before the colon, and letters after it
    if byte(line, at.wrapping_sub(1)) == b' ' && byte(line, at) < b':' {
        l[n % 24] = signed(line, at);
        return n.wrapping_add(1);
    }
    n
}

// The first n numbers of a list, again and again.
fn over_again(first: [u64; 24], n: usize) -> [u64; 24] {
    let mut l = first;
    for i in n..24 {
        l[i] = l[i.wrapping_sub(n) % 24];
    }
    l
}

// The numbers of field k, again and again. That goes on beyond 24 where 24 is a multiple of how many
// there are, as of one to four.
pub fn list(line: &[u8], k: u64) -> [u64; 24] {
    let mut l = [0u64; 24];
    let mut n: usize = 0;
    for at in field(line, k)..line.len() {
        if line[at] == b';' {
            return over_again(l, n);
        }
        n = put(&mut l, n, line, at);
    }
    over_again(l, n)
}

// The 64 bits x as a number with a sign; one that no i32 holds becomes 0, as does the least that one holds.
fn narrow(x: u64) -> i32 {
    if x < 0x8000_0000 {
        return x as i32;
    }
    let size = 0u64.wrapping_sub(x);
    if size < 0x8000_0000 {
        -(size as i32)
    } else {
        0
    }
}

// A table, or a column of one, of the numbers of field k.
pub fn fill(t: &mut [i32], line: &[u8], k: u64) {
    let l = list(line, k);
    for i in 0..t.len() {
        t[i] = narrow(l[i % 24]);
    }
}

// The state of n cells: four columns, each from a field of its own. Behind them the table is as it was.
pub fn fill_state(state: &mut [i32], line: &[u8], n: usize)
    requires { 4 * n ≤ length state.old }
{
    fill(&mut state[0..n], line, 1);
    fill(&mut state[n..2 * n], line, 2);
    fill(&mut state[2 * n..3 * n], line, 3);
    fill(&mut state[3 * n..4 * n], line, 4);
}

pub fn fill_friction(t: &mut [u16], line: &[u8]) {
    let l = list(line, 6);
    for i in 0..t.len() {
        t[i] = (l[i % 24] % 0x1_0000) as u16;
    }
}

// Number j beside the tables: dx, dt, J, the dry depth, the kinds of the two ends and the Q of each.
pub fn given(line: &[u8], j: usize) -> u32 {
    let l = list(line, 7);
    (l[j % 24] % 0x1_0000_0000) as u32
}

// How much of a table of m is lent or shown: number j of state, next, bed, friction, and `next` again.
pub fn lent(line: &[u8], j: usize, m: usize) -> usize
    ensures { result ≤ m }
{
    let l = list(line, 8);
    let x = l[j % 24];
    if x < m as u64 { x as usize } else { m }
}
