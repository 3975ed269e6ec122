// The line program's lines: a line is read, answered by the tuner's calls, and the answer is written.

#![tactic(auto)]

ghost use Rattle.std.specs.Prelude.{◌≡◌, List, ℕ, ◌+◌, ◌*◌, ◌≤◌, length, IfSome, option_map, Option, None, []};
ghost use Rattle.rules.specs.Rules.{longest_block};
ghost use Rattle.refusals.specs.Refusals.{number_of};
ghost use Rattle.text.specs.Text.{number, sample, Put};
ghost use Rattle.text.specs.Fields.{left, room_of};
ghost use Rattle.text.specs.Reading.{no_sample, no_number};
ghost use Rattle.lines.specs.Lines.{Line, start, block, each, number_line, block_line, desk, numbered, begins, read, Answered, AnsweredAll};
ghost use Rattle.lines.specs.Steps.{asked, said, read_first, others, four_others, four_in, one_fields, start_fields, change_fields, block_fields, reset_fields, midi_fields, values_of, Replied};

use refusals::Refusal;
use rules::{CD_RATE, LONGEST_BLOCK, SCALE_MODE, Settings};
use text::{Decimal, Fields};
use tuner::{Answer, Tuner};

// What a line is answered: the answer, whether a take began, and how many bytes were written.
#[derive(Clone, Copy)]
pub struct Reply {
    pub answer: Answer,
    pub begins: bool,
    pub length: usize,
}

// What lines are answered: the place after the last one, and how many bytes were written.
#[derive(Clone, Copy)]
pub struct Replies {
    pub at: usize,
    pub length: usize,
}

// A longer line cannot be read.
const LONGEST_LINE: usize = 8192;

// More values than a line has.
const MOST_VALUES: usize = 4096;

// The room that an answer may need.
const ANSWER_ROOM: usize = 4096;

// ---- what a line says

// What a line asks for; a block's number, and the samples or bytes that are lent to it.
enum Request<'a> {
    Start(u32, Settings),
    Change(Settings),
    Block(u16, &'a [i16]),
    Reset,
    Mode(u32),
    Channel(u32),
    Midi(&'a [u8]),
}

// A value that has a field of its own.
trait Value: Copy {
    ghost how: { List ℕ → Option Self };

    fn read(field: &[u8]) -> Option<Self>
        ensures { result ≡ how field.now };

    ghost none_in_nothing: { how [] ≡ None };
}

impl Value for i16 {
    ghost how = { sample };

    ghost none_in_nothing = { no_sample };

    fn read(field: &[u8]) -> Option<i16> {
        text::read_sample(field)
    }
}

impl Value for u8 {
    ghost how = { number 255 };

    ghost none_in_nothing = { no_number 255 };

    fn read(field: &[u8]) -> Option<u8> {
        let value = text::read_number(field, 255)?;
        Some(value as u8)
    }
}

// The setting in the next field.
fn setting(fields: &mut Fields) -> Option<u32>
    ensures value { result ≡ read_first (number 4294967295) (left fields.old) }
    ensures rest { left fields.new ≡ others (left fields.old) }
{
    text::read_number(fields.next()?, u32::MAX)
}

// The settings in the next four fields.
fn four_settings(fields: &mut Fields) -> Option<Settings>
    ensures value { result ≡ four_in (left fields.old) }
    ensures rest { IfSome result (λ _. left fields.new ≡ four_others (left fields.old)) }
{
    Some(Settings {
        scale: setting(fields)?,
        eps: setting(fields)?,
        decay: setting(fields)?,
        floor: setting(fields)?,
        mode: SCALE_MODE,
        channel: 0,
    })
}

// After four settings the sample rate, 44,100 if it is missing, and no field more.
fn read_start<'a>(mut fields: Fields) -> Option<Request<'a>>
    ensures { option_map asked result ≡ start_fields (left fields.entry) }
{
    let settings = four_settings(&mut fields)?;
    let hertz = match fields.next() {
        Some(field) => text::read_number(field, u32::MAX)?,
        None => CD_RATE,
    };
    match fields.next() {
        Some(_) => None,
        None => Some(Request::Start(hertz, settings)),
    }
}

// Four settings, and no field more.
fn read_change<'a>(mut fields: Fields) -> Option<Request<'a>>
    ensures { option_map asked result ≡ change_fields (left fields.entry) }
{
    let settings = four_settings(&mut fields)?;
    match fields.next() {
        Some(_) => None,
        None => Some(Request::Change(settings)),
    }
}

// One setting, and no field more.
fn one_setting(mut fields: Fields) -> Option<u32>
    ensures { result ≡ one_fields (left fields.entry) }
{
    let value = setting(&mut fields)?;
    match fields.next() {
        Some(_) => None,
        None => Some(value),
    }
}

// The values of all fields, laid into the places that are lent.
fn values<'a, V: Value>(fields: Fields, places: &'a mut [V; MOST_VALUES]) -> Option<&'a [V]>
    requires { room_of (left fields) ≤ 8193 }
    ensures { values_of result ≡ each V.how (left fields.entry) }
{
    let mut n = 0;
    for field in fields {
        places[n] = V::read(field)?;
        n += 1;
    }
    Some(&places[..n])
}

// A block's number, at most 65535, and its samples.
fn read_block<'a>(mut fields: Fields, places: &'a mut [i16; MOST_VALUES]) -> Option<Request<'a>>
    requires { room_of (left fields) ≤ 8193 }
    ensures { option_map asked result ≡ block_fields (left fields.entry) }
{
    let number = text::read_number(fields.next()?, 65535)? as u16;
    let samples = values(fields, places)?;
    Some(Request::Block(number, samples))
}

// At least one byte.
fn read_midi<'a>(fields: Fields, places: &'a mut [u8; MOST_VALUES]) -> Option<Request<'a>>
    requires { room_of (left fields) ≤ 8193 }
    ensures { option_map asked result ≡ midi_fields (left fields.entry) }
{
    let bytes = values(fields, places)?;
    if bytes.is_empty() {
        return None;
    }
    Some(Request::Midi(bytes))
}

// No field more.
fn read_reset<'a>(mut fields: Fields) -> Option<Request<'a>>
    ensures { option_map asked result ≡ reset_fields (left fields.entry) }
{
    match fields.next() {
        Some(_) => None,
        None => Some(Request::Reset),
    }
}

// What a line says, by its first word; none where it cannot be read. There is no heap: samples and bytes go into the places that are lent.
fn parse<'a>(
    line: &[u8],
    samples: &'a mut [i16; MOST_VALUES],
    bytes: &'a mut [u8; MOST_VALUES],
) -> Option<Request<'a>>
    ensures { said result ≡ read line.now }
{
    if line.len() > LONGEST_LINE {
        return None;
    }
    let mut fields = Fields::new(line);
    let word = fields.next()?;
    // Stays: no match on byte strings, since some thirty ways lead to its last arm, which was not proved.
    if word == b"start".as_slice() {
        return read_start(fields);
    }
    if word == b"change".as_slice() {
        return read_change(fields);
    }
    if word == b"block".as_slice() {
        return read_block(fields, samples);
    }
    if word == b"reset".as_slice() {
        return read_reset(fields);
    }
    if word == b"mode".as_slice() {
        return Some(Request::Mode(one_setting(fields)?));
    }
    if word == b"channel".as_slice() {
        return Some(Request::Channel(one_setting(fields)?));
    }
    if word == b"midi".as_slice() {
        return read_midi(fields, bytes);
    }
    None
}

// ---- what it is answered

// An answer that has no more to say than its number.
fn numbered(number: u32) -> Answer
    ensures { result ≡ numbered number }
{
    Answer {
        number,
        written: 0,
        repeated: 0,
        dropped: 0,
        pitched: 0,
        strayed: 0,
        rows: 0,
        left: 0,
    }
}

// Answers the number alone.
fn say(taken: Result<(), Refusal>, begins: bool, out: &mut [u8]) -> Reply
    requires { 4096 ≤ length out.old }
    ensures answer { result.answer ≡ numbered (number_of taken) }
    ensures begins { result.begins ≡ begins }
    ensures put { Put out.old 0 (number_line (number_of taken)) out.new result.length }
{
    let number = refusals::number(taken);
    Reply {
        answer: numbered(number),
        begins,
        length: text::put_line(out, 0, number),
    }
}

// Writes the line that answers a block.
fn say_block(a: Answer, ys: &[i16], out: &mut [u8]) -> usize
    requires { (4096 ≤ length out.old) × (a.written ≤ longest_block) × (length ys.now ≡ longest_block) }
    ensures { Put out.old 0 (block_line a ys.now) out.new result }
{
    let at = a.number.put(out, 0);
    let at = text::put_field(out, at, u32::from(a.written));
    let at = text::put_field(out, at, u32::from(a.repeated));
    let at = text::put_field(out, at, u32::from(a.dropped));
    let at = text::put_samples(out, at, &ys[..usize::from(a.written)]);
    out[at] = b'\n';
    at + 1
}

// Start begins anew, with a list where there was one; if it is refused, the old tuner stays.
fn start(t: &mut Tuner, hertz: u32, s: Settings, out: &mut [u8], store: &[u32]) -> Reply
    requires { 4096 ≤ length out.old }
    ensures { Replied (desk t.old store.now) (start hertz s) (desk t.new store.now) result out.old out.new }
{
    let mut fresh = Tuner::default();
    match fresh.start(hertz, s, t.numbers.listed, &[], store) {
        Ok(()) => {
            *t = fresh;
            say(Ok(()), true, out)
        }
        Err(refusal) => say(Err(refusal), false, out),
    }
}

// The lead's output alone is lent: a tuner with voices has no room for them.
fn block(t: &mut Tuner, number: u16, samples: &[i16], out: &mut [u8], store: &mut [u32]) -> Reply
    requires { 4096 ≤ length out.old }
    ensures { Replied (desk t.old store.old) (block number samples.now) (desk t.new store.new) result out.old out.new }
{
    let mut ys = [0; LONGEST_BLOCK];
    let answer = t.block(number, samples, &mut ys, &mut [], &mut [], &mut [], store);
    Reply {
        answer,
        begins: false,
        length: say_block(answer, &ys, out),
    }
}

// Does what is asked for. A change keeps mode and channel; those two keep the other settings.
fn obey(t: &mut Tuner, request: Request, out: &mut [u8], store: &mut [u32]) -> Reply
    requires { 4096 ≤ length out.old }
    ensures { Replied (desk t.old store.old) (asked request.entry) (desk t.new store.new) result out.old out.new }
{
    match request {
        Request::Start(hertz, settings) => start(t, hertz, settings, out, store),
        Request::Change(settings) => {
            let asked = Settings {
                mode: t.numbers.settings.mode,
                channel: t.numbers.settings.channel,
                ..settings
            };
            say(t.change(asked), false, out)
        }
        Request::Block(number, samples) => block(t, number, samples, out, store),
        Request::Reset => {
            let reset = t.reset(store);
            say(reset, reset.is_ok(), out)
        }
        Request::Mode(mode) => {
            let asked = Settings {
                mode,
                ..t.numbers.settings
            };
            say(t.change(asked), false, out)
        }
        Request::Channel(channel) => {
            let asked = Settings {
                channel,
                ..t.numbers.settings
            };
            say(t.change(asked), false, out)
        }
        Request::Midi(bytes) => say(t.midi(bytes), false, out),
    }
}

// Answers a line, given without its end, and lends a store for the list of a tuner that keeps one. With less room than 4,096 bytes nothing is done.
pub fn answer_line(t: &mut Tuner, line: &[u8], out: &mut [u8], store: &mut [u32]) -> Reply
    ensures answered { Answered (desk t.old store.old) line.now out.old (desk t.new store.new) result.answer result.length out.new }
    ensures begun { result.begins ≡ begins (read line.now) result.answer }
{
    if out.len() < ANSWER_ROOM {
        return Reply {
            answer: numbered(Refusal::OutputShort.number()),
            begins: false,
            length: 0,
        };
    }
    let mut samples = [0; MOST_VALUES];
    let mut bytes = [0; MOST_VALUES];
    match parse(line, &mut samples, &mut bytes) {
        Some(request) => obey(t, request, out, store),
        None => say(Err(Refusal::LineUnreadable), false, out),
    }
}

// Answers one line after the other, as far as lines end within the input and there is room for an answer.
pub fn answer_lines(t: &mut Tuner, input: &[u8], out: &mut [u8], store: &mut [u32]) -> Replies
    ensures { AnsweredAll (desk t.old store.old) input.now out.old (desk t.new store.new) result.at result.length out.new }
{
    let mut at = 0;
    let mut length = 0;
    loop {
        let end = text::first(input, at, b'\n');
        if end == input.len() || out.len() - length < ANSWER_ROOM {
            return Replies { at, length };
        }
        let reply = answer_line(t, &input[at..end], &mut out[length..], store);
        length += reply.length;
        at = end + 1;
    }
}
