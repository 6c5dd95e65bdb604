// Translator: an Orc script into a table, any bytes for the script and any two numbers for the result endpoint (request 2026-03): the reply, and the table in the output.
#![tactic(auto)]

ghost use Rattle.std.specs.Prelude.{◌≡◌, ◌*◌, ◌≤◌, length};
ghost use Rattle.cows.specs.Format.{encode};
ghost use Rattle.records.specs.Rewrites.{put};
ghost use Rattle.stepper.specs.Replies.{Answers};
ghost use Rattle.orc.specs.Expressions.{Orc};
ghost use Rattle.orc.specs.Translation.{translation};
ghost use Rattle.extents.specs.Extents.{out_size};
ghost use Rattle.scripts.specs.Standing.{ScriptOf};
ghost use Rattle.translator.specs.Judging.{KnownScript, RightScript, judge_output, judge_nesting, Translated, OrcClaims};

use records::limits;
use scripts::Endpoint;
use tables::{Reply, accepted, refusal};
use translating::Pass;

// Writes the translation, for which there is room.
fn write_translation(script: &[u8], to: Endpoint, out: &mut [u8])
    requires { KnownScript script.now to.partner to.operation × ((e : Orc) → ScriptOf script.now e → 16 * out_size e ≤ length out.old) }
    ensures { (e : Orc) → ScriptOf script.now e → out.new ≡ put out.old 0 (encode (translation to.partner to.operation e)) }
{
    let used = spares::held(script, to);
    let start = Pass {
        place: 0,
        byte: 0,
        value: 1,
        label: limits::FIRST_LABEL,
    };
    translating::write(script, &used, start, to, out);
}

// Refusals 20 and 21 of a script without other refusals, or its translation.
fn translate_fitting(script: &[u8], to: Endpoint, out: &mut [u8]) -> Reply
    requires { KnownScript script.now to.partner to.operation }
    ensures { (e : Orc) → ScriptOf script.now e → Answers (judge_output e to.partner to.operation (length out.old)) out.old out.new result }
{
    let extent = extents::measure(script, 0);
    if (limits::MAX_RECORDS < extent.records) | (limits::MAX_DEPTH < extent.depth) {
        return refusal(20, 0);
    }
    if out.len() < 16 * extent.records {
        return refusal(21, 0);
    }
    write_translation(script, to, out);
    accepted(extent.records)
}

// Refusals from 31 on of right records.
fn translate_right(script: &[u8], to: Endpoint, out: &mut [u8]) -> Reply
    requires { RightScript script.now to.partner to.operation }
    ensures { Answers (judge_nesting script.now to.partner to.operation (length out.old)) out.old out.new result }
{
    if let Some(p) = nesting::find_misplaced(script) {
        return refusal(31, p);
    }
    if let Some(p) = bindings::find_misbound(script) {
        return refusal(32, p);
    }
    translate_fitting(script, to, out)
}

// The table of an Orc script: 0, 0 and its records, which the output then begins with, or the refusal of 30 to 32, 20 or 21, its place and 0. Reply and every output byte
// are those of the definition, and of both the request's claims hold.
pub fn translate(script: &[u8], partner: u16, operation: u16, out: &mut [u8]) -> Reply
    ensures { Translated script.now partner operation out.old out.new result × OrcClaims script.now partner operation out.old out.new result }
{
    let n = script.len();
    let wrong_length = (n == 0) | (4096 < n) | (n % 8 != 0);
    if wrong_length | !(scripts::in_values(partner) & scripts::in_values(operation)) {
        return refusal(30, 0);
    }
    if let Some(p) = scripts::first_malformed(script) {
        return refusal(30, p);
    }
    translate_right(script, Endpoint { partner, operation }, out)
}
