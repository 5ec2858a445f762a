// The file for the hints of a replay, where one is asked for.
ghost use Rattle.std.specs.Prelude.{◌≡◌, IfOk, List};
ghost use Rattle.std.specs.String.{string_bytes};
ghost use Rattle.address_map.specs.Pairs.{Pair};
ghost use Rattle.image_file.specs.Values.{ImageValue};
ghost use Rattle.run_files.specs.Values.{OrderValue};
ghost use Rattle.stored_runs.specs.Found.{AreFound};
ghost use Rattle.translated_file.specs.Whole.{AreHints};
ghost use Rattle.vest_cli.specs.Hints.{AreHintBytes, StoresFile};

use crate::storing::write_behind;
use run_files::write_hints;
use std::alloc::Global;
use vax_form::WantOfMemory;
use vest_stops::Done;
use vt_outside::Desk;

/// Where hints go: the name of a file, with the bytes that it gets.
#[derive(Drop)]
pub(crate) struct HintFile {
    pub name: String,
    pub bytes: Vec<u8>,
}

/// The file of the addresses that an order finds.
pub(crate) fn hint_file(
    alloc: Global,
    name: &str,
    addresses: &[u32],
) -> Result<HintFile, WantOfMemory>
    requires { AreHints addresses.now }
    ensures name { IfOk result (λ file. string_bytes file.name ≡ name.now) }
    ensures bytes { (image : ImageValue) (order : OrderValue) (map : List Pair) → AreFound image order map addresses.now → IfOk result (λ file. AreHintBytes image order map file.bytes.items) }
{
    let bytes = write_hints(alloc, addresses)?;
    let name = String::from_str(alloc, name)?;
    Ok(HintFile { name, bytes })
}

/// Writes the file behind output and report, where there is one and the sinks took all. It takes no memory.
pub(crate) fn store_hints<D: Desk>(sent: Done, file: Option<HintFile>, desk: &mut D) -> Done
    ensures { StoresFile file result sent (D.meaning desk.old) (D.meaning desk.new) }
{
    match file {
        Some(file) => write_behind(sent, &file.name, &file.bytes, desk),
        None => sent,
    }
}
