//! The codes of the services, CHMK's operand: of the instructions' meaning, and of the translated code's call that serves.
#![tactic(auto)]

ghost use Rattle.std.specs.Prelude.{◌≡◌};
ghost use Rattle.service_codes.specs.Codes as stated;

/// Ends the thread with R0.
pub const EXIT: u64 = 1;
/// Puts out the low byte of R0.
pub const PUT: u64 = 2;
/// Gets a byte of the input into R0.
pub const GET: u64 = 3;
/// Tells the thread's number in R0.
pub const THREAD: u64 = 4;
/// Exchanges R0 and the address of the thread's handler of exceptions.
pub const HANDLER: u64 = 5;
/// Goes on as the frame at SP says.
pub const RESUME: u64 = 6;

/// The codes are those that the definitions state in figures.
pub fn codes_are_as_stated()
    ensures exit { EXIT ≡ stated.EXIT }
    ensures put { PUT ≡ stated.PUT }
    ensures get { GET ≡ stated.GET }
    ensures thread { THREAD ≡ stated.THREAD }
    ensures handler { HANDLER ≡ stated.HANDLER }
    ensures resume { RESUME ≡ stated.RESUME }
{}
