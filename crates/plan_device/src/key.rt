// The formats of a device file, the keys that each format has, and the groups: keys whose values have a member for each name.
ghost use Rattle.std.specs.Prelude.{◌≡◌, bytes_eq};
ghost use Rattle.std.specs.List.{list_any};
ghost use Rattle.serde_json.specs.View.{view};
ghost use Rattle.plan_device.specs.Keys.{group_name, group_of, key_name, keys_in, format_by, format_of};
ghost use Rattle.plan_device.specs.Faults.{is_key_in};

use serde_json::Value;

/// The version of a file's format; `Neither` where the file names another.
#[derive(Clone, Copy)]
pub enum Format {
    One,
    Two,
    Neither,
}

/// The keys whose values are objects with a member for each name.
#[derive(Clone, Copy)]
pub enum Group {
    Tasks,
    Pins,
}

/// The keys of a device file.
#[derive(Clone, Copy)]
pub enum Key {
    Version,
    Rows,
    Cols,
    Slots,
    Levels,
    LevelsRows,
    LevelsCols,
    Percent,
    Members(Group),
    Forbidden,
}

impl Group {
    /// The name of the key, as a device file has it.
    pub fn name(self) -> &'static str
        ensures { result.now ≡ group_name self }
    {
        match self {
            Group::Tasks => "tasks",
            Group::Pins => "pins",
        }
    }
}

impl Key {
    /// The name of the key, as a device file has it.
    pub fn name(self) -> &'static str
        ensures { result.now ≡ key_name self }
    {
        match self {
            Key::Version => "version",
            Key::Rows => "rows",
            Key::Cols => "cols",
            Key::Slots => "slots",
            Key::Levels => "levels",
            Key::LevelsRows => "levels_rows",
            Key::LevelsCols => "levels_cols",
            Key::Percent => "percent",
            Key::Members(group) => group.name(),
            Key::Forbidden => "forbidden",
        }
    }

    /// The group that it is the name of.
    pub fn group(self) -> Option<Group>
        ensures { result ≡ group_of self }
    {
        match self {
            Key::Members(group) => Some(group),
            _ => None,
        }
    }
}

const KEYS_OF_ONE: [Key; 8] = [
    Key::Version,
    Key::Rows,
    Key::Cols,
    Key::Slots,
    Key::Levels,
    Key::Percent,
    Key::Members(Group::Tasks),
    Key::Members(Group::Pins),
];

const KEYS_OF_TWO: [Key; 10] = [
    Key::Version,
    Key::Rows,
    Key::Cols,
    Key::Slots,
    Key::LevelsRows,
    Key::LevelsCols,
    Key::Percent,
    Key::Members(Group::Tasks),
    Key::Members(Group::Pins),
    Key::Forbidden,
];

const KEYS_OF_BOTH: [Key; 11] = [
    Key::Version,
    Key::Rows,
    Key::Cols,
    Key::Slots,
    Key::Levels,
    Key::LevelsRows,
    Key::LevelsCols,
    Key::Percent,
    Key::Members(Group::Tasks),
    Key::Members(Group::Pins),
    Key::Forbidden,
];

impl Format {
    /// The format that a file says it has.
    pub fn of(file: &Value) -> Format
        ensures { result ≡ format_of (view file.now) }
    {
        match file.get(Key::Version.name()) {
            Some(version) => Format::by(version.as_u64()),
            None => Format::One,
        }
    }

    fn by(version: Option<u64>) -> Format
        ensures { result ≡ format_by version }
    {
        match version {
            Some(1) => Format::One,
            Some(2) => Format::Two,
            _ => Format::Neither,
        }
    }

    /// The keys of the group, in the order in which they are looked at.
    pub fn keys(self) -> &'static [Key]
        ensures { result.now ≡ keys_in self }
    {
        match self {
            Format::One => &KEYS_OF_ONE,
            Format::Two => &KEYS_OF_TWO,
            Format::Neither => &KEYS_OF_BOTH,
        }
    }

    /// Whether a name is one of its keys.
    pub fn has_key(self, name: &str) -> bool
        ensures { result ≡ is_key_in self name.now }
    {
        self.keys().iter().any(|key| key.name() == name)
    }
}
