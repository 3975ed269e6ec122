// Up to three voices beside the lead: when they are right, the room and the writing of their outputs, what they sing beside a block, and where they begin.

#![tactic(auto)]

ghost use Rattle.std.specs.Prelude.{◌≡◌, ℕ, ◌≤◌, ◌<◌, pos, length, get_or};
ghost use Rattle.whole.specs.Tests.{Decides};
ghost use Rattle.rules.specs.Rules.{longest_block, kept_samples};
ghost use Rattle.rules.specs.Facts.{SampleRate};
ghost use Rattle.refusals.specs.Refusals.{number_of};
ghost use Rattle.voices.specs.Singing.{TrackedAll};
ghost use Rattle.singers.specs.Singers.{VoiceIn, VoicesIn, outs, room_with, least_room, written_by, all_written, kept_interval, intervals_number, level_voice, chosen_voices, level_voices};
ghost use Rattle.singers.specs.Voicing.{SangBy, AllSang};

use refusals::Refusal;
use rules::{FARTHEST, KEPT_SAMPLES, LONGEST_BLOCK};
use voices::UNISON;

// The widest interval, kept as 0 to 24 for -12 to 12.
const WIDEST: u32 = 2 * UNISON;

// What an interval out of range is kept as.
const NO_INTERVAL: u32 = WIDEST + 1;

// So many voices may be chosen.
const MOST_VOICES: usize = 3;

// A voice: its interval, how far its position lies behind the input, and its last output.
#[repr(C)]
#[derive(Clone, Copy)]
pub struct Voice {
    pub interval: u32,
    pub behind: u32,
    pub out: [i16; LONGEST_BLOCK],
}

// How many voices are chosen, and the voices.
#[repr(C)]
#[derive(Clone, Copy)]
pub struct Voices {
    pub count: u64,
    pub first: Voice,
    pub second: Voice,
    pub third: Voice,
}

// A voice that is chosen is in its ranges.
fn voice_right(j: u64, chosen: u64, v: Voice) -> bool
    ensures { Decides result (j < chosen → VoiceIn v) }
{
    chosen <= j || (v.interval <= WIDEST && v.behind <= FARTHEST)
}

pub fn voices_right(vs: Voices) -> bool
    ensures { Decides result (VoicesIn vs) }
{
    vs.count <= MOST_VOICES as u64
        && voice_right(0, vs.count, vs.first)
        && voice_right(1, vs.count, vs.second)
        && voice_right(2, vs.count, vs.third)
}

// The lesser of this room and that of a voice's output, where the voice is chosen.
#[tactic(auto, unfolding(crate::specs::Singers::room_with))]
fn room_with(j: u64, chosen: u64, places: usize, room: usize) -> usize
    ensures { result ≡ room_with j chosen places room }
{
    if j < chosen { places.min(room) } else { room }
}

// The least room of the lead's output and the chosen voices'.
pub fn least_room(chosen: u64, lead: usize, first: usize, second: usize, third: usize) -> usize
    ensures { result ≡ least_room chosen lead first second third }
{
    let one = room_with(0, chosen, first, lead);
    let two = room_with(1, chosen, second, one);
    room_with(2, chosen, third, two)
}

// A voice that is chosen sings beside the n newest samples of the store, for which the lead had these periods and wanted notes.
fn sung(
    j: u64,
    chosen: u64,
    v: Voice,
    hertz: u32,
    periods: &[u32; LONGEST_BLOCK],
    notes: &[u32; LONGEST_BLOCK],
    s: &[i16; KEPT_SAMPLES],
    n: usize,
) -> Voice
    requires { (j < chosen → VoiceIn v) × SampleRate hertz × TrackedAll n periods.now notes.now × (n ≤ longest_block) }
    ensures { SangBy j chosen hertz periods.now notes.now s.now n v result }
{
    if chosen <= j {
        return v;
    }
    let mut out = [0i16; LONGEST_BLOCK];
    let behind = voices::sing(
        v.behind,
        hertz,
        v.interval,
        periods,
        notes,
        s,
        KEPT_SAMPLES - n,
        n,
        &mut out,
    );
    Voice { behind, out, ..v }
}

// Each voice that is chosen sings, by itself.
pub fn all_sung(
    vs: Voices,
    hertz: u32,
    periods: &[u32; LONGEST_BLOCK],
    notes: &[u32; LONGEST_BLOCK],
    s: &[i16; KEPT_SAMPLES],
    n: usize,
) -> Voices
    requires { VoicesIn vs × SampleRate hertz × TrackedAll n periods.now notes.now × (n ≤ longest_block) }
    ensures { AllSang hertz periods.now notes.now s.now n vs result }
{
    Voices {
        first: sung(0, vs.count, vs.first, hertz, periods, notes, s, n),
        second: sung(1, vs.count, vs.second, hertz, periods, notes, s, n),
        third: sung(2, vs.count, vs.third, hertz, periods, notes, s, n),
        ..vs
    }
}

// The output that a chosen voice keeps is written.
#[tactic(auto, unfolding(crate::specs::Singers::written_by))]
fn give(j: u64, chosen: u64, v: Voice, n: usize, out: &mut [i16])
    requires { (n ≤ longest_block) × (j < chosen → n ≤ length out.old) }
    ensures { out.new ≡ written_by j chosen n v out.old }
{
    if j < chosen {
        copying::give(&v.out, out, n);
    }
}

// The outputs that the chosen voices keep are written.
pub fn give_all(vs: Voices, n: usize, first: &mut [i16], second: &mut [i16], third: &mut [i16])
    requires { (n ≤ longest_block) × (0 < vs.count → n ≤ length first.old) × (1 < vs.count → n ≤ length second.old) × (2 < vs.count → n ≤ length third.old) }
    ensures { outs first.new second.new third.new ≡ all_written n vs (outs first.old second.old third.old) }
{
    give(0, vs.count, vs.first, n, first);
    give(1, vs.count, vs.second, n, second);
    give(2, vs.count, vs.third, n, third);
}

// An interval in semitones as it is kept.
#[tactic(auto, unfolding(crate::specs::Singers::kept_interval))]
pub fn kept_interval(z: i32) -> u32
    ensures { result ≡ kept_interval z }
{
    if z < -12 || 12 < z {
        NO_INTERVAL
    } else {
        (12 + z) as u32
    }
}

fn all_in_range(intervals: &[i32]) -> bool
    ensures { Decides result ((i : ℕ) → i < length intervals.now → kept_interval (get_or intervals.now i (pos 0)) ≤ 24) }
{
    intervals.iter().all(|z| kept_interval(*z) <= WIDEST)
}

// Whether these intervals may be chosen: the range is tested first, then how many there are.
pub fn check_intervals(intervals: &[i32]) -> Result<(), Refusal>
    ensures { number_of result ≡ intervals_number intervals.now }
{
    if !all_in_range(intervals) {
        return Err(Refusal::IntervalOutOfRange);
    }
    if intervals.len() > MOST_VOICES {
        return Err(Refusal::TooManyVoices);
    }
    Ok(())
}

// A voice level with the input, that kept no output.
#[tactic(auto, unfolding(crate::specs::Singers::level_voice))]
fn level_voice(interval: u32) -> Voice
    ensures { result ≡ level_voice interval }
{
    Voice {
        interval,
        behind: 0,
        out: [0; LONGEST_BLOCK],
    }
}

// The voice of interval j; in unison where there is none.
fn chosen_voice(intervals: &[i32], j: usize) -> Voice
    ensures { result ≡ level_voice (kept_interval (get_or intervals.now j (pos 0))) }
{
    match intervals.get(j) {
        Some(z) => level_voice(kept_interval(*z)),
        None => level_voice(UNISON),
    }
}

#[tactic(auto, unfolding(crate::specs::Singers::chosen_voices))]
pub fn chosen_voices(intervals: &[i32]) -> Voices
    ensures { result ≡ chosen_voices intervals.now }
{
    Voices {
        count: intervals.len() as u64,
        first: chosen_voice(intervals, 0),
        second: chosen_voice(intervals, 1),
        third: chosen_voice(intervals, 2),
    }
}

// The same voices, each level.
#[tactic(auto, unfolding(crate::specs::Singers::level_voices))]
pub fn level_voices(vs: Voices) -> Voices
    ensures { result ≡ level_voices vs }
{
    Voices {
        first: level_voice(vs.first.interval),
        second: level_voice(vs.second.interval),
        third: level_voice(vs.third.interval),
        ..vs
    }
}
