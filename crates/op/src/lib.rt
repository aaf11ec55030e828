// The ops of a command, by name. Document 01, "Command sheet"; Run is document 02's, A.1, Preview A.5, Depart and
// Recover A.7.
#![tactic(auto)]

ghost use Rattle.op.specs.Numbers.{Names};

use change::Refusal;

#[derive(Clone, Copy, PartialEq, Eq)]
pub enum Op {
    Tick,
    LoadWords,
    Command,
    Arm,
    Stop,
    ReadInterrupts,
    SetMask,
    ReadStatus,
    ShowWords,
    Run,
    Preview,
    Depart,
    Recover,
}

impl TryFrom<u64> for Op {
    type Error = Refusal;

    ghost try_from_gives = { Names };

    // The op of this number; number 5 where it has none.
    fn try_from(number: u64) -> Result<Self, Refusal> {
        match number {
            0 => Ok(Op::Tick),
            1 => Ok(Op::LoadWords),
            2 => Ok(Op::Command),
            3 => Ok(Op::Arm),
            4 => Ok(Op::Stop),
            5 => Ok(Op::ReadInterrupts),
            6 => Ok(Op::SetMask),
            7 => Ok(Op::ReadStatus),
            8 => Ok(Op::ShowWords),
            9 => Ok(Op::Run),
            10 => Ok(Op::Preview),
            11 => Ok(Op::Depart),
            12 => Ok(Op::Recover),
            _ => Err(Refusal::Op),
        }
    }
}
