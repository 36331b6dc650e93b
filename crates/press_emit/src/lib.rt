// The records of the pressed sheet, written one after another and tallied: the result has the "record count, node count, step count, peak".
#![tactic(auto)]

ghost use Rattle.std.specs.Prelude.{◌≡◌, [], ◌∷◌, length};
ghost use Rattle.sheet.specs.Denote.{record_of};
ghost use Rattle.press_emit.specs.Emission.{emitted_by, emit_record, Roomy};

use sheet::edition::Edition;
use sheet::{Record, RecordNo};
use tally::Tally;

// The records written so far, in which edition, and the tally of them.
#[derive(Clone, Copy)]
pub struct Emitted {
    pub edition: Edition,
    pub records: u16,
    pub tally: Tally,
}

// A sheet that is being written: where, and what is written so far.
#[derive(Drop)]
pub struct Emitter<'a> {
    pub out: &'a mut [u8],
    pub emitted: Emitted,
}

impl<'a> Emitter<'a> {
    // One record more.
    #[tactic(auto, unfolding(crate::specs::Emission::emit_record))]
    pub fn emit_record(&mut self, r: Record)
        requires { Roomy (record_of r ∷ []) (emitted_by self.old) }
        ensures written { emitted_by self.new ≡ emit_record (record_of r) (emitted_by self.old) }
        ensures same_reference { self.new.out.ghost_name ≡ self.old.out.ghost_name }
    {
        sheet_write::put_record(
            self.emitted.edition,
            self.out,
            RecordNo(usize::from(self.emitted.records)),
            r,
        );
        self.emitted.records += 1;
        self.emitted.tally = tally::counted(self.emitted.tally, r);
    }
}
