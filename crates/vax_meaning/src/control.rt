// Services: CHMK.
ghost use Rattle.std.specs.Prelude.{◌≡◌, ◌<◌, ◌^◌};
ghost use Rattle.vax_form.specs.Script.{ask};
ghost use Rattle.vax_meaning.specs.Play.{Plays, Uses};
ghost use Rattle.vax_meaning.specs.Control.{put_byte, get_byte, answer_with, exchange_handler, ask_to_resume, serve, change_mode};

use crate::codes::set_pc;
use crate::cursor::Cursor;
use crate::evaluation::{Evaluated, value_of_place};
use crate::operands::{register_of, set_register_of};
use service_codes::{EXIT, GET, HANDLER, PUT, RESUME, THREAD};
use vax_form::{End, Instr, Pending, RefKind, Reference, Size, Stop};

/// A reference that is none to memory.
fn outside(cursor: &mut Cursor, kind: RefKind) -> Result<u64, Stop>
    ensures plays { Plays (ask (record { address = 0; count = 0; kind = kind })) cursor.old result cursor.new }
    ensures few { Uses 1 cursor.old result cursor.new }
{
    cursor.ask(Reference {
        address: 0,
        count: 0,
        kind,
    })
}

/// Appends the low byte of R0 to the output.
#[tactic(auto, unfolding(crate::specs::Control::put_byte))]
fn put_byte(cursor: &mut Cursor) -> Result<End, Stop>
    ensures plays { Plays put_byte cursor.old result cursor.new }
    ensures few { Uses 1 cursor.old result cursor.new }
{
    let byte = register_of(cursor, 0) % 256;
    outside(cursor, RefKind::Put(byte as u8))?;
    Ok(End::Done)
}

/// Takes the next byte of the input into R0.
#[tactic(auto, unfolding(crate::specs::Control::get_byte))]
fn get_byte(cursor: &mut Cursor) -> Result<End, Stop>
    ensures plays { Plays get_byte cursor.old result cursor.new }
    ensures few { Uses 1 cursor.old result cursor.new }
{
    let got = outside(cursor, RefKind::Get)?;
    set_register_of(cursor, 0, (got % 0x1_0000_0000) as u32);
    Ok(End::Done)
}

/// Answers a service with a value in R0.
fn answer_with(cursor: &mut Cursor, value: u32) -> Result<End, Stop>
    ensures plays { Plays (answer_with value) cursor.old result cursor.new }
    ensures few { Uses 0 cursor.old result cursor.new }
{
    set_register_of(cursor, 0, value);
    Ok(End::Done)
}

/// Makes R0 the handler, and gives the handler before.
#[tactic(auto, unfolding(crate::specs::Control::exchange_handler))]
fn exchange_handler(cursor: &mut Cursor) -> Result<End, Stop>
    ensures plays { Plays exchange_handler cursor.old result cursor.new }
    ensures few { Uses 0 cursor.old result cursor.new }
{
    let before = cursor.state.handler;
    cursor.state.handler = register_of(cursor, 0);
    answer_with(cursor, before)
}

/// Resumes behind the service.
fn ask_to_resume(cursor: &mut Cursor) -> Result<End, Stop>
    ensures plays { Plays ask_to_resume cursor.old result cursor.new }
    ensures few { Uses 0 cursor.old result cursor.new }
{
    cursor.state.pending = Pending::Resume;
    Ok(End::Done)
}

/// Does a service, by its code; any other gives 0.
#[tactic(auto, unfolding(crate::specs::Control::serve))]
pub fn serve(cursor: &mut Cursor, code: u64, thread: u8) -> Result<End, Stop>
    ensures plays { Plays (serve code thread) cursor.old result cursor.new }
    ensures few { Uses 1 cursor.old result cursor.new }
{
    match code {
        EXIT => Ok(End::Exits),
        PUT => put_byte(cursor),
        GET => get_byte(cursor),
        THREAD => answer_with(cursor, thread as u32),
        HANDLER => exchange_handler(cursor),
        RESUME => ask_to_resume(cursor),
        _ => answer_with(cursor, 0),
    }
}

/// CHMK.
#[tactic(auto, unfolding(crate::specs::Control::change_mode))]
pub fn change_mode(
    cursor: &mut Cursor,
    instr: &Instr,
    thread: u8,
    values: &[Evaluated; 6],
) -> Result<End, Stop>
    ensures plays { Plays (change_mode instr.now thread values.now) cursor.old result cursor.new }
    ensures few { Uses 1 cursor.old result cursor.new }
{
    set_pc(cursor, instr.after);
    serve(cursor, value_of_place(values, 0, Size::Word), thread)
}
