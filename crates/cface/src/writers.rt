// Writers that cross as twelve numbers: header, cursor, held, the four numbers of the tail, spent. Numbers that no writer has give 4.
ghost use Rattle.std.specs.Prelude.{◌≡◌};
ghost use Rattle.medium.specs.Fuse.{stored_number};
ghost use Rattle.medium.specs.Operation.{unless_stored};
ghost use Rattle.medium.specs.Refusal.{answer_of, code_of};
ghost use Rattle.crossing.specs.Crossing.{units_after, left_of, value_of, plain};
ghost use Rattle.cface.specs.Writers.{sayable_of, writer_of, writer_numbers, Small, SmallBy, left_by};

use crossing::call::Told;
use crossing::{call, outs, values};
use medium::fuse::Ended;
use medium::refusal::Refusal;
use writer::writer::{ObjectWriter, Writing};

// A header, counts that the library tests, and numbers that are bytes and a flag.
#[tactic(auto, unfolding(crate::specs::Writers::writer_of), using(medium::proofs::Refusals::passed, medium::proofs::Refusals::not_done, objects::proofs::Answers::gate_on, objects::proofs::Answers::gate_stop, crate::proofs::Counts::sayable_is))]
pub fn writer_of(n: &[u32; 12]) -> Result<ObjectWriter, Refusal>
    ensures { answer_of result ≡ writer_of n.now }
{
    let h = values::header_from(n[0], n[1], n[2], n[3], n[4])?;
    sayable(n[7], n[8], n[9], n[10], n[11])?;
    Ok(ObjectWriter {
        object: h,
        cursor: n[5] as usize,
        tail: [n[7] as u8, n[8] as u8, n[9] as u8, n[10] as u8],
        held: n[6] as usize,
        spent: n[11] == 1,
    })
}

// 4 for a number of the tail that is no byte, or a last number above 1.
#[tactic(auto, unfolding(crate::specs::Writers::sayable_of))]
fn sayable(a: u32, b: u32, c: u32, d: u32, spent: u32) -> Result<(), Refusal>
    ensures { code_of result ≡ sayable_of a b c d spent }
{
    if 255 < a || 255 < b || 255 < c || 255 < d || 1 < spent {
        return Err(Refusal::InvalidOperation);
    }
    Ok(())
}

pub(crate) fn put_writer(w: ObjectWriter, out: &mut [u32; 12])
    requires { Small w }
    ensures { out.new ≡ writer_numbers w }
{
    let h = w.object;
    let kind = h.state.type_byte() as u32;
    let rank = h.state.rank() as u32;
    *out = [
        kind,
        rank,
        h.size,
        h.location.block,
        h.location.offset,
        w.cursor as u32,
        w.held as u32,
        w.tail[0] as u32,
        w.tail[1] as u32,
        w.tail[2] as u32,
        w.tail[3] as u32,
        w.spent as u32,
    ];
}

// The answer of a store of a writer: number and units, and the writer where it is done.
#[tactic(auto, unfolding(crossing::specs::Crossing::units_after))]
pub(crate) fn hand_out(answer: Writing, units: &mut u32, out: &mut [u32; 12]) -> u8
    requires { SmallBy answer.answer answer.writer }
    ensures value { result ≡ stored_number answer.answer }
    ensures units_after { units.new ≡ units_after answer.answer units.old }
    ensures out_after { out.new ≡ unless_stored answer.answer out.old (writer_numbers answer.writer) }
{
    if answer.answer.is_ok() {
        put_writer(answer.writer, out);
    }
    call::hand_back(answer.answer.map_err(Told::from), units)
}

// The same of a writer that came in: after 8 its last number says that it is spent.
pub(crate) fn hand_back(answer: Writing, units: &mut u32, out: &mut [u32; 12]) -> u8
    requires { SmallBy answer.answer answer.writer }
    ensures value { result ≡ stored_number answer.answer }
    ensures units_after { units.new ≡ units_after answer.answer units.old }
    ensures out_after { out.new ≡ left_by (stored_number answer.answer) (unless_stored answer.answer out.old (writer_numbers answer.writer)) }
{
    let n = hand_out(answer, units, out);
    spend(n, out);
    n
}

fn spend(n: u8, out: &mut [u32; 12])
    ensures { out.new ≡ left_by n out.old }
{
    if n == 8 {
        out[11] = 1;
    }
}

// The answer of an object written whole: number and units, and its total size where it is done.
#[tactic(auto, unfolding(crossing::specs::Crossing::units_after))]
pub(crate) fn hand_total(answer: Ended<usize>, units: &mut u32, total: &mut u64) -> u8
    ensures value { result ≡ stored_number (left_of answer) }
    ensures units_after { units.new ≡ units_after (left_of answer) units.old }
    ensures total_after { total.new ≡ value_of plain total.old answer }
{
    match answer.map_err(Told::from) {
        Ok((n, fuse)) => {
            *total = n as u64;
            call::hand_back(Ok(fuse), units)
        }
        Err(told) => call::hand_back(Err(told), units),
    }
}
