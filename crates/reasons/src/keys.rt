//! The keys of each form, and what their values must be.

/// The greatest number of a unit.
pub(crate) const GREATEST_BYTE: u64 = u8::MAX as u64;

/// The greatest number anywhere else.
pub(crate) const GREATEST_WORD: u64 = u32::MAX as u64;

/// What a key's value must be.
#[derive(Clone, Copy, PartialEq, Eq)]
pub(crate) enum Value {
    /// A tenant's name.
    Name,
    /// A text.
    Text,
    /// A whole number up to this one.
    Whole(u64),
    /// A list of texts.
    Texts,
    /// An object of three numbers.
    Quota,
}

/// A key of a form.
#[derive(Clone, Copy)]
pub(crate) struct Key {
    pub name: &'static str,
    pub value: Value,
}

impl Key {
    /// Whether it may be left out.
    pub(crate) fn is_optional(&self) -> bool {
        self.name == "quota" || self.name == "optimism"
    }
}

const OPEN: [Key; 4] = [
    Key {
        name: "tenant",
        value: Value::Name,
    },
    Key {
        name: "units",
        value: Value::Texts,
    },
    Key {
        name: "quota",
        value: Value::Quota,
    },
    Key {
        name: "optimism",
        value: Value::Whole(GREATEST_WORD),
    },
];

const JOIN: [Key; 2] = [
    Key {
        name: "tenant",
        value: Value::Name,
    },
    Key {
        name: "kind",
        value: Value::Text,
    },
];

const POST: [Key; 4] = [
    Key {
        name: "number",
        value: Value::Whole(GREATEST_WORD),
    },
    Key {
        name: "tenant",
        value: Value::Name,
    },
    Key {
        name: "text",
        value: Value::Text,
    },
    Key {
        name: "unit",
        value: Value::Whole(GREATEST_BYTE),
    },
];

const DELIVER: [Key; 2] = [
    Key {
        name: "letter",
        value: Value::Whole(GREATEST_WORD),
    },
    Key {
        name: "tenant",
        value: Value::Name,
    },
];

const OF_UNIT: [Key; 2] = [
    Key {
        name: "tenant",
        value: Value::Name,
    },
    Key {
        name: "unit",
        value: Value::Whole(GREATEST_BYTE),
    },
];

/// The keys of a form beside `do`, if there is such a step.
pub(crate) fn keys_of(step: &str) -> Option<&'static [Key]> {
    match step {
        "open" => Some(&OPEN),
        "join" => Some(&JOIN),
        "post" => Some(&POST),
        "deliver" => Some(&DELIVER),
        "flush" | "checkpoint" | "kill" | "restart" | "notice" | "release" | "status" => {
            Some(&OF_UNIT)
        }
        _ => None,
    }
}

/// What a value must be, in words.
pub(crate) fn wanted(value: Value) -> &'static str {
    match value {
        Value::Name => "1 to 32 of a to z, 0 to 9 and -",
        Value::Text => "a text",
        Value::Whole(GREATEST_BYTE) => "a whole number up to 255",
        Value::Whole(_) => "a whole number up to 4294967295",
        Value::Texts => "a list of texts",
        Value::Quota =>
            "an object of held, letters and volatile, each a whole number up to 4294967295",
    }
}
