// The transport: a clock in frames that plays, pauses, loops and ends. It is one struct by value.
// Each call that changes it hands back the new one, or with a refusal the old one; the calls that
// go through the meter and tempo maps are in the crate `timeline`.
#![tactic(auto)]

ghost use Rattle.std.specs.Prelude.{◌≡◌};
ghost use Rattle.numbers.specs.Refusals.{read};
ghost use Rattle.transport.specs.Transports.{sound, constant_at, made_answer, playing};
ghost use Rattle.transport.specs.Changes.{play_answer, pause_answer, stop_answer, seek_answer, loop_answer, unloop_answer};
ghost use Rattle.transport.specs.Advances.{advance_answer};
ghost use Rattle.transport.specs.Readings.{read_handed, read_moves, read_advanced};

use beats::Beat;
use numbers::Refusal;

pub mod change;
pub mod playhead;

#[derive(Clone, Copy, Debug, PartialEq, Eq)]
pub enum PlayState {
    Stopped,
    Playing,
    Paused,
}

impl PlayState {
    ghost use Rattle.std.specs.Prelude.{◌≡◌};
    ghost use Rattle.transport.specs.Words.{state_of};

    // A word above 2 is no state, and is read as 2.
    pub fn of_word(word: u64) -> PlayState
        ensures { result ≡ state_of word }
    {
        match word {
            0 => PlayState::Stopped,
            1 => PlayState::Playing,
            _ => PlayState::Paused,
        }
    }
}

impl From<PlayState> for u64 {
    ghost use Rattle.std.specs.Prelude.{◌≡◌};
    ghost use Rattle.transport.specs.Words.{state_word};

    ghost from_gives = { λ state word. word ≡ state_word state };

    fn from(state: PlayState) -> u64 {
        match state {
            PlayState::Stopped => 0,
            PlayState::Playing => 1,
            PlayState::Paused => 2,
        }
    }
}

// From its first frame up to its end, which is not in it.
#[derive(Clone, Copy, Debug, PartialEq, Eq)]
pub struct LoopRange {
    pub start: u64,
    pub end: u64,
}

#[derive(Clone, Copy, Debug, PartialEq)]
pub struct Transport {
    pub sample_rate: u32,
    // the tempo where no tempo map is lent
    pub bpm: f32,
    // the meter where no meter point is in force
    pub beats_per_bar: u32,
    pub length: u64,
    pub position: u64,
    pub state: PlayState,
    pub looping: Option<LoopRange>,
    pub pickup: Option<Beat>,
}

// The transport after a call, and what the call answers; where it refuses, the transport as it was.
#[derive(Clone, Copy, Debug, PartialEq)]
pub struct Handed<A> {
    pub transport: Transport,
    pub answer: Result<A, Refusal>,
}

// What an advance did.
#[derive(Clone, Copy, Debug, PartialEq, Eq)]
pub struct Moves {
    pub wrapped: bool,
    pub finished: bool,
}

// A clock of one tempo and one meter, as long as frames can be counted, stopped at frame 0.
pub fn constant(rate: u32, bpm: f32, beats: u32) -> Transport
    ensures { result ≡ constant_at rate bpm beats }
{
    change::fresh(rate, bpm, beats, u64::MAX, None)
}

// The same with a length and a pickup.
pub fn with_length(
    rate: u32,
    bpm: f32,
    beats: u32,
    length: u64,
    pickup: Option<Beat>,
) -> Result<Transport, Refusal>
    ensures { read result ≡ made_answer rate bpm beats length pickup }
{
    if !meter::is_sound_pickup(pickup) {
        return Err(Refusal::NotBeat);
    }
    Ok(change::fresh(rate, bpm, beats, length, pickup))
}

impl Transport {
    // Whether no call refuses it by 12.
    #[tactic(auto, unfolding(crate::specs::Transports::sound))]
    pub fn is_sound(self) -> bool
        ensures { result ≡ sound self }
    {
        let within = self.position <= self.length;
        within
            && playhead::sound_loop(self.length, self.looping)
            && meter::is_sound_pickup(self.pickup)
    }

    // What the fields hold, of an unsound transport too.

    pub fn sample_rate(self) -> u32
        ensures { result ≡ self.sample_rate }
    {
        self.sample_rate
    }

    pub fn state(self) -> PlayState
        ensures { result ≡ self.state }
    {
        self.state
    }

    pub fn is_playing(self) -> bool
        ensures { result ≡ playing self.state }
    {
        matches!(self.state, PlayState::Playing)
    }

    pub fn position_frames(self) -> u64
        ensures { result ≡ self.position }
    {
        self.position
    }

    pub fn length_frames(self) -> u64
        ensures { result ≡ self.length }
    {
        self.length
    }

    pub fn loop_range(self) -> Option<LoopRange>
        ensures { result ≡ self.looping }
    {
        self.looping
    }

    // Start or go on.
    pub fn play(self) -> Handed<()>
        ensures { read_handed result ≡ play_answer self }
    {
        change::if_sound(self, change::moved(self, self.position, PlayState::Playing))
    }

    // Hold the position.
    pub fn pause(self) -> Handed<()>
        ensures { read_handed result ≡ pause_answer self }
    {
        change::if_sound(self, change::moved(self, self.position, PlayState::Paused))
    }

    // Stop, at frame 0.
    pub fn stop(self) -> Handed<()>
        ensures { read_handed result ≡ stop_answer self }
    {
        change::if_sound(self, change::moved(self, 0, PlayState::Stopped))
    }

    // Go to a frame, or to the end where that is nearer.
    pub fn seek_frame(self, frame: u64) -> Handed<()>
        ensures { read_handed result ≡ seek_answer self frame }
    {
        change::if_sound(self, change::sought(self, frame))
    }

    // Loop from a frame up to another.
    pub fn set_loop_frames(self, start: u64, end: u64) -> Handed<()>
        ensures { read_handed result ≡ loop_answer self start end }
    {
        if !self.is_sound() {
            return change::unsound(self);
        }
        change::looped(self, start, end)
    }

    pub fn clear_loop(self) -> Handed<()>
        ensures { read_handed result ≡ unloop_answer self }
    {
        change::if_sound(self, change::with_loop(self, None))
    }

    // Let so many frames go by.
    pub fn advance(self, frames: u64) -> Handed<Moves>
        ensures { read_advanced result ≡ advance_answer self frames }
    {
        if !self.is_sound() {
            return Handed {
                transport: self,
                answer: Err(Refusal::Unsound),
            };
        }
        let run = playhead::advanced(self, frames);
        let transport = run.transport;
        Handed {
            transport,
            answer: Ok(run.moves),
        }
    }
}

// The same, of the owner's transport where it stands.
pub fn advance_in_place(t: &mut Transport, frames: u64) -> Result<Moves, Refusal>
    ensures { (read_moves result ≡ (advance_answer t.old frames).answer) × (t.new ≡ (advance_answer t.old frames).transport) }
{
    let handed = (*t).advance(frames);
    *t = handed.transport;
    handed.answer
}
