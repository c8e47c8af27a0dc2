// The head of a stored case (second/README.md, "A stored case"): the call, its numbers, and how long the buffers are.

ghost use Rattle.std.specs.Prelude.{◌≤◌};

// The calls, as a case numbers them.
#[derive(Clone, Copy, Debug, PartialEq, Eq)]
pub enum Call {
    Check,
    List,
    Free,
    Address,
    SweepObject,
    SweepFree,
    Release,
    Place,
    Claim,
    ChooseCopy,
    CopyOver,
    CopyAddresses,
    Mend,
    MendPositions,
    Format,
    FormatLength,
}

impl Call {
    // The call of a number, or None where no call has it.
    pub fn from_number(number: u8) -> Option<Call> {
        match number {
            1 => Some(Call::Check),
            2 => Some(Call::List),
            3 => Some(Call::Free),
            4 => Some(Call::Address),
            5 => Some(Call::SweepObject),
            6 => Some(Call::SweepFree),
            7 => Some(Call::Release),
            8 => Some(Call::Place),
            9 => Some(Call::Claim),
            10 => Some(Call::ChooseCopy),
            11 => Some(Call::CopyOver),
            12 => Some(Call::CopyAddresses),
            13 => Some(Call::Mend),
            14 => Some(Call::MendPositions),
            15 => Some(Call::Format),
            16 => Some(Call::FormatLength),
            _ => None,
        }
    }

    pub fn writes_list(self) -> bool {
        matches!(
            self,
            Call::List | Call::Free | Call::Release | Call::Claim | Call::MendPositions
        )
    }

    pub fn writes_map(self) -> bool {
        matches!(
            self,
            Call::Release | Call::Place | Call::Claim | Call::Mend | Call::Format
        )
    }

    pub fn writes_image(self) -> bool {
        matches!(self, Call::SweepObject | Call::SweepFree)
    }

    // Whether it writes the copy that is lent in the image's place.
    pub fn writes_copy(self) -> bool {
        self == Call::CopyOver
    }
}

#[derive(Clone, Copy, Debug, PartialEq, Eq)]
pub struct Case {
    // None where no call has the number.
    pub call: Option<Call>,
    pub fill: u8,
    // The id or n; of a claim the parent zone, of a disc to format log2secsize.
    pub number: u32,
    // The position, first address or size; of a disc to format the capacity.
    pub wide: u64,
    // How many bytes the map and the image have, and how many entries the list.
    pub map_len: usize,
    pub list_len: usize,
    pub image_len: usize,
    // Of a disc to format.
    pub idlen: u32,
}

impl Case {
    pub fn from_head(head: &[u8; 32]) -> Case {
        Case {
            call: Call::from_number(head[0]),
            fill: head[1],
            number: word(head, 4),
            wide: u64::from_le_bytes([
                head[8], head[9], head[10], head[11], head[12], head[13], head[14], head[15],
            ]),
            map_len: word(head, 16) as usize,
            list_len: word(head, 20) as usize,
            image_len: word(head, 24) as usize,
            idlen: word(head, 28),
        }
    }
}

// Four bytes from a place on, lowest first.
fn word(head: &[u8; 32], at: usize) -> u32
    requires { at ≤ 28 }
{
    u32::from_le_bytes([head[at], head[at + 1], head[at + 2], head[at + 3]])
}
