//! The bytes of an order file from the history of a run.
ghost use Rattle.std.specs.Prelude.{◌≡◌, ◌≤◌, ◌+◌, ◌*◌, [], ◌++◌, length, vec_capacity};
ghost use Rattle.std.specs.List.{flat_map};
ghost use Rattle.std.specs.Int.{w32, to_le_bytes};
ghost use Rattle.system_model.specs.Counted.{is_counted, pick_of, order};
ghost use Rattle.run_files.specs.Fits.{AreFew};
ghost use Rattle.run_files.specs.Spelling.{header_bytes, end_bytes, pick_bytes, order_bytes, order_room, stored_order};

use crate::limits::*;
use memory_core::Entry;
use system_model::is_counted;

/// The room of a file with so many threads, bytes of input, and entries of a history.
pub fn order_room(threads: usize, input: usize, entries: usize) -> usize
    requires { AreFew threads input entries }
    ensures { result ≡ order_room threads input entries }
{
    HEADER + THREAD_BYTES * threads + input + PICK_BYTES * entries
}

/// How many picks the order of a history has.
fn count_picks(history: &[Entry]) -> u32
    requires { length history.now ≤ MOST_PICKS }
    ensures { result ≡ length (order history.now) }
{
    let mut picks = 0;
    for entry in history {
        picks += u32::from(is_counted(entry));
    }
    picks
}

fn put_bytes(into: &mut Vec<u8>, bytes: &[u8])
    requires { length into.old.items + length bytes.now ≤ vec_capacity into.old }
    ensures items { into.new.items ≡ into.old.items ++ bytes.now }
    ensures capacity { vec_capacity into.new ≡ vec_capacity into.old }
{
    for byte in bytes {
        into.push_reserved(*byte);
    }
}

fn put_words(into: &mut Vec<u8>, words: &[u32])
    requires { length into.old.items + 4 * length words.now ≤ vec_capacity into.old }
    ensures items { into.new.items ≡ into.old.items ++ flat_map (to_le_bytes w32) words.now }
    ensures long { length into.new.items ≡ length into.old.items + 4 * length words.now }
    ensures capacity { vec_capacity into.new ≡ vec_capacity into.old }
{
    for word in words {
        put_bytes(into, &word.to_le_bytes());
    }
}

fn put_header(into: &mut Vec<u8>, threads: u32, picks: u32, input: u32)
    requires { length into.old.items + HEADER ≤ vec_capacity into.old }
    ensures items { into.new.items ≡ into.old.items ++ header_bytes threads picks input }
    ensures long { length into.new.items ≡ length into.old.items + HEADER }
    ensures capacity { vec_capacity into.new ≡ vec_capacity into.old }
{
    put_words(into, &[MAGIC, VERSION, threads, picks, input]);
}

fn put_end(into: &mut Vec<u8>, count: u64, spent: bool)
    requires { length into.old.items + THREAD_BYTES ≤ vec_capacity into.old }
    ensures items { into.new.items ≡ into.old.items ++ end_bytes (count, spent) }
    ensures capacity { vec_capacity into.new ≡ vec_capacity into.old }
{
    put_bytes(into, &count.to_le_bytes());
    into.push_reserved(u8::from(spent));
}

fn put_ends(into: &mut Vec<u8>, ends: &[(u64, bool)])
    requires { length into.old.items + THREAD_BYTES * length ends.now ≤ vec_capacity into.old }
    ensures items { into.new.items ≡ into.old.items ++ flat_map end_bytes ends.now }
    ensures long { length into.new.items ≡ length into.old.items + THREAD_BYTES * length ends.now }
    ensures capacity { vec_capacity into.new ≡ vec_capacity into.old }
{
    for end in ends {
        put_end(into, end.0, end.1);
    }
}

fn put_pick(into: &mut Vec<u8>, entry: &Entry)
    requires { length into.old.items + PICK_BYTES ≤ vec_capacity into.old }
    ensures items { into.new.items ≡ into.old.items ++ pick_bytes (pick_of entry.now) }
    ensures capacity { vec_capacity into.new ≡ vec_capacity into.old }
{
    into.push_reserved(entry.processor);
    put_bytes(into, &entry.retired.to_le_bytes());
}

fn put_picks(into: &mut Vec<u8>, history: &[Entry])
    requires { length into.old.items + PICK_BYTES * length history.now ≤ vec_capacity into.old }
    ensures { into.new.items ≡ into.old.items ++ flat_map pick_bytes (order history.now) }
{
    for entry in history {
        if is_counted(entry) {
            put_pick(into, entry);
        }
    }
}

/// Appends the file of a history's order, of the input, and of the threads' ends: how many instructions each retired, and
/// whether it is Spent. It takes no memory.
pub fn append_order(history: &[Entry], input: &[u8], ends: &[(u64, bool)], into: &mut Vec<u8>)
    requires empty { into.old.items ≡ [] }
    requires room { order_room (length ends.now) (length input.now) (length history.now) ≤ vec_capacity into.old }
    requires few { AreFew (length ends.now) (length input.now) (length history.now) }
    ensures { into.new.items ≡ order_bytes (stored_order ends.now input.now (order history.now)) }
{
    put_header(
        into,
        ends.len() as u32,
        count_picks(history),
        input.len() as u32,
    );
    put_ends(into, ends);
    put_bytes(into, input);
    put_picks(into, history);
}
