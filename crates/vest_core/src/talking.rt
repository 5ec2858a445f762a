// A world of one thread, talked with.
ghost use Rattle.std.specs.Prelude.{◌≡◌, ◌<◌, ◌^◌, ◌-◌};
ghost use Rattle.block_law.specs.Translations.{Meets};
ghost use Rattle.image_meaning.specs.Meant.{image_meaning};
ghost use Rattle.image_meaning.specs.Permits.{any_permit};
ghost use Rattle.tie_switch.specs.Settings.{image_setting};
ghost use Rattle.vest_core.specs.LiveWorlds.{IsLegalLive, IsNewLive};
ghost use Rattle.vest_core.specs.Talks.{HasTalked, Hears};

use crate::live::LiveWorld;
use crate::progress::Progress;
use image_file::Image;
use prepared_code::Prepared;
use report_text::Offered;
use system_model::{Range, Translation};
use tie_switch::{KNOWN, Pause};
use vt_outside::{Got, Sink, Source, write_all};

/// How a talk ended.
#[derive(Clone, Copy, Debug, PartialEq, Eq)]
pub enum TalkEnd {
    /// The processor has ended.
    Ended,
    /// The source failed.
    ReadFault,
    /// The sink failed.
    WriteFault,
    /// The sink of the report failed.
    ReportFault,
}

// What a source answers that is asked for one byte.
enum Heard {
    Byte(u8),
    End,
    Failed,
}

// Asks for one byte.
fn hear<I: Source>(input: &mut I) -> Heard
    ensures { Hears result (I.meaning input.old) (I.meaning input.new) }
{
    let mut byte = [0];
    match input.read(&mut byte) {
        Got::Bytes(_) => Heard::Byte(byte[0]),
        Got::End => Heard::End,
        Got::Failed => Heard::Failed,
    }
}

impl LiveWorld {
    /// Gives the processor of a new world turns until it has ended. Where it asks for a byte of the input the source is asked for
    /// just one, until that is at its end; what it puts goes to the sink before that, where the buffer is full, and at the end. With
    /// `every` a line goes to the report each time that it has made so many steps more, at its next boundary, behind what it put. A
    /// source or a sink that fails ends the talk; the processor then stands where it stood. It takes no memory.
    pub fn talk<I: Source, K: Sink, E: Sink>(
        &mut self,
        image: &Image,
        translation: &Translation,
        prepared: &Prepared<'_>,
        ranges: &[Range],
        input: &mut I,
        out: &mut K,
        every: Option<u64>,
        report: &mut E,
    ) -> TalkEnd
        requires new { IsNewLive image.now self.old.budget self.old.memory.buffer self.old.memory.contents.set_up.miss self.old }
        requires room { 0 < self.old.memory.buffer }
        requires few { self.old.budget < 2 ^ 64 - 1 }
        requires code { prepared.now.code ≡ translation.now }
        requires pages { prepared.now.pages ≡ image.now.pages }
        requires meets { Meets (image_meaning image.now.pages) (any_permit image.now.pages) translation.now }
        requires legal { IsLegalLive (image_setting image.now.pages translation.now ranges.now) self.old }
        ensures image { self.new.memory.contents.set_up.image ≡ image.now }
        ensures miss { self.new.memory.contents.set_up.miss ≡ self.old.memory.contents.set_up.miss }
        ensures budget { self.new.budget ≡ self.old.budget }
        ensures talked { HasTalked result (image_setting image.now.pages translation.now ranges.now) self.new.memory.contents.set_up self.new.budget self.new.memory.contents.history self.new.processor
            (I.meaning input.old) (I.meaning input.new) (K.meaning out.old) (K.meaning out.new) every (E.meaning report.old) (E.meaning report.new) }
    {
        let mut known = [None; KNOWN];
        let mut progress = Progress::new(every);
        let mut input_ended = false;
        loop {
            let retired = self.processor().retired();
            let turns = progress.turns(self.processor().steps());
            let (_, pause) = self.advance(
                image,
                translation,
                prepared,
                ranges,
                &mut known,
                input_ended,
                turns,
            );
            if write_all(out, self.output()).is_err() {
                return TalkEnd::WriteFault;
            }
            if let Offered::Failed = progress.tell(retired, self.processor(), report) {
                return TalkEnd::ReportFault;
            }
            match pause {
                Pause::Ended => return TalkEnd::Ended,
                Pause::WantsInput => match hear(input) {
                    Heard::Byte(byte) => {
                        self.give(byte);
                        self.send();
                    }
                    Heard::End => {
                        input_ended = true;
                        self.send();
                    }
                    Heard::Failed => return TalkEnd::ReadFault,
                },
                Pause::FullOutput | Pause::Most => self.send(),
            }
        }
    }
}
