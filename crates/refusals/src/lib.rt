// The refusals of document 01, each with its number there. docs/FAULTS.md is the card: condition, and where it is checked.

#![tactic(auto)]

ghost use Rattle.std.specs.Prelude.{◌≡◌};
ghost use Rattle.refusals.specs.Refusal.{number_of};

#[derive(Clone, Copy, Debug, PartialEq, Eq)]
pub enum Refusal {
    StoreOrOutputLength = 1,
    TableNotSound = 2,
    LidOutOfRange = 3,
    LsduLength = 4,
    HeaderNotValid = 5,
    NumberReserved = 6,
    NoPayload = 7,
    NotOpen = 8,
    NoFreeSlot = 9,
    CounterNotExpected = 10,
    CounterExhausted = 11,
    MessageTooLong = 12,
    CutShort = 13,
    OctetsLeft = 14,
    ChoiceUnknown = 15,
    ExtensionBit = 16,
    ContainerKind = 17,
    CountTooLarge = 18,
    TooDeep = 19,
    ApduTooLong = 21,
    OutputTooSmall = 22,
    RecordOutOfRange = 23,
    NotServed = 24,
    LinkNotReady = 25,
    ListNotSound = 26,
}

impl From<Refusal> for u8 {
    ghost from_gives = { λ refusal number. number ≡ number_of refusal };

    fn from(refusal: Refusal) -> u8 {
        match refusal {
            Refusal::StoreOrOutputLength => STORE_OR_OUTPUT_LENGTH,
            Refusal::TableNotSound => TABLE_NOT_SOUND,
            Refusal::LidOutOfRange => LID_OUT_OF_RANGE,
            Refusal::LsduLength => LSDU_LENGTH,
            Refusal::HeaderNotValid => HEADER_NOT_VALID,
            Refusal::NumberReserved => NUMBER_RESERVED,
            Refusal::NoPayload => NO_PAYLOAD,
            Refusal::NotOpen => NOT_OPEN,
            Refusal::NoFreeSlot => NO_FREE_SLOT,
            Refusal::CounterNotExpected => COUNTER_NOT_EXPECTED,
            Refusal::CounterExhausted => COUNTER_EXHAUSTED,
            Refusal::MessageTooLong => MESSAGE_TOO_LONG,
            Refusal::CutShort => CUT_SHORT,
            Refusal::OctetsLeft => OCTETS_LEFT,
            Refusal::ChoiceUnknown => CHOICE_UNKNOWN,
            Refusal::ExtensionBit => EXTENSION_BIT,
            Refusal::ContainerKind => CONTAINER_KIND,
            Refusal::CountTooLarge => COUNT_TOO_LARGE,
            Refusal::TooDeep => TOO_DEEP,
            Refusal::ApduTooLong => APDU_TOO_LONG,
            Refusal::OutputTooSmall => OUTPUT_TOO_SMALL,
            Refusal::RecordOutOfRange => RECORD_OUT_OF_RANGE,
            Refusal::NotServed => NOT_SERVED,
            Refusal::LinkNotReady => LINK_NOT_READY,
            Refusal::ListNotSound => LIST_NOT_SOUND,
        }
    }
}

pub const STORE_OR_OUTPUT_LENGTH: u8 = Refusal::StoreOrOutputLength as u8;

pub const TABLE_NOT_SOUND: u8 = Refusal::TableNotSound as u8;

pub const LID_OUT_OF_RANGE: u8 = Refusal::LidOutOfRange as u8;

pub const LSDU_LENGTH: u8 = Refusal::LsduLength as u8;

pub const HEADER_NOT_VALID: u8 = Refusal::HeaderNotValid as u8;

pub const NUMBER_RESERVED: u8 = Refusal::NumberReserved as u8;

pub const NO_PAYLOAD: u8 = Refusal::NoPayload as u8;

pub const NOT_OPEN: u8 = Refusal::NotOpen as u8;

pub const NO_FREE_SLOT: u8 = Refusal::NoFreeSlot as u8;

pub const COUNTER_NOT_EXPECTED: u8 = Refusal::CounterNotExpected as u8;

pub const COUNTER_EXHAUSTED: u8 = Refusal::CounterExhausted as u8;

pub const MESSAGE_TOO_LONG: u8 = Refusal::MessageTooLong as u8;

pub const CUT_SHORT: u8 = Refusal::CutShort as u8;

pub const OCTETS_LEFT: u8 = Refusal::OctetsLeft as u8;

pub const CHOICE_UNKNOWN: u8 = Refusal::ChoiceUnknown as u8;

pub const EXTENSION_BIT: u8 = Refusal::ExtensionBit as u8;

pub const CONTAINER_KIND: u8 = Refusal::ContainerKind as u8;

pub const COUNT_TOO_LARGE: u8 = Refusal::CountTooLarge as u8;

pub const TOO_DEEP: u8 = Refusal::TooDeep as u8;

pub const APDU_TOO_LONG: u8 = Refusal::ApduTooLong as u8;

pub const OUTPUT_TOO_SMALL: u8 = Refusal::OutputTooSmall as u8;

pub const RECORD_OUT_OF_RANGE: u8 = Refusal::RecordOutOfRange as u8;

pub const NOT_SERVED: u8 = Refusal::NotServed as u8;

pub const LINK_NOT_READY: u8 = Refusal::LinkNotReady as u8;

pub const LIST_NOT_SOUND: u8 = Refusal::ListNotSound as u8;
