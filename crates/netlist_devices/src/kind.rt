//! The kinds of devices.

ghost use Rattle.std.specs.Prelude.{◌≡◌, length, take};
ghost use Rattle.std.specs.Str.{str_to_ascii_lowercase};
ghost use Rattle.netlist_devices.specs.Devices.{directives, ends_with_number, has_source, is_directive, kind_beside};
ghost use Rattle.netlist_devices.specs.Devices.{kind_of, letters, nodes_wanted, words_wanted};
ghost use Rattle.netlist_devices.specs.Rules.{is_opamp, is_voltage};
ghost use Rattle.netlist_devices.specs.EquationNames.{equation_words, unknown_words};

/// What a device does.
#[derive(Clone, Copy, Debug, PartialEq, Eq)]
pub enum DeviceKind {
    /// R, L or C: its voltage and its current are in a proportion that is not known.
    Passive,
    /// V: its voltage is given.
    Voltage,
    /// I: its current is given.
    Current,
    /// E: its voltage is in proportion to another voltage.
    VoltageByVoltage,
    /// G: its current is in proportion to another voltage.
    CurrentByVoltage,
    /// F: its current is in proportion to that of its source.
    CurrentByCurrent,
    /// H: its voltage is in proportion to the current of its source.
    VoltageByCurrent,
    /// Its inputs are at one voltage, and carry no current.
    Opamp,
    /// Two pairs of nodes: the voltages are in a ratio that is known, and the currents in the inverse one.
    Transformer,
    /// Two pairs of nodes: each voltage is the other pair's current times a number that is known.
    Gyrator,
}

impl DeviceKind {
    /// The kind that a line's first word tells: `.opamp`, `.transformer` or `.gyrator`, or else its first letter, of
    /// either case.
    pub fn of(word: &str) -> Option<DeviceKind>
        ensures { result ≡ kind_of word.now }
    {
        directive(word).or(kind_by_letter(word))
    }

    /// Whether a word stands before the device's name, and none may follow those that it needs.
    pub fn is_directive(self) -> bool
        ensures { result ≡ is_directive self }
    {
        matches!(
            self,
            DeviceKind::Opamp | DeviceKind::Transformer | DeviceKind::Gyrator
        )
    }

    /// Whether the current of a V device controls it.
    pub fn has_source(self) -> bool
        ensures { result ≡ has_source self }
    {
        matches!(
            self,
            DeviceKind::CurrentByCurrent | DeviceKind::VoltageByCurrent
        )
    }

    /// Whether its line ends with a number that counts.
    pub fn has_number(self) -> bool
        ensures { result ≡ ends_with_number self }
    {
        matches!(self, DeviceKind::Transformer | DeviceKind::Gyrator)
    }

    /// How many nodes it has.
    pub fn nodes_wanted(self) -> usize
        ensures { result ≡ nodes_wanted self }
    {
        match self {
            DeviceKind::Passive
            | DeviceKind::Voltage
            | DeviceKind::Current
            | DeviceKind::CurrentByCurrent
            | DeviceKind::VoltageByCurrent => 2,
            DeviceKind::Opamp => 3,
            DeviceKind::VoltageByVoltage
            | DeviceKind::CurrentByVoltage
            | DeviceKind::Transformer
            | DeviceKind::Gyrator => 4,
        }
    }

    /// How many words it needs: its name, its nodes, and its source or its number.
    pub fn words_wanted(self) -> usize
        ensures { result ≡ words_wanted self }
    {
        let more = self.has_source() || self.has_number();
        1 + self.nodes_wanted() + usize::from(more)
    }

    /// Whether it is a V device.
    pub fn is_voltage(self) -> bool
        ensures { result ≡ is_voltage self }
    {
        matches!(self, DeviceKind::Voltage)
    }

    /// Whether it is an opamp.
    pub fn is_opamp(self) -> bool
        ensures { result ≡ is_opamp self }
    {
        matches!(self, DeviceKind::Opamp)
    }

    /// How many equations it has of its own.
    pub fn equations_wanted(self) -> usize
        ensures { result ≡ length (equation_words self) }
    {
        match self {
            DeviceKind::Opamp => 1,
            DeviceKind::Passive
            | DeviceKind::Voltage
            | DeviceKind::Current
            | DeviceKind::CurrentByCurrent
            | DeviceKind::VoltageByCurrent => 2,
            DeviceKind::VoltageByVoltage | DeviceKind::CurrentByVoltage => 3,
            DeviceKind::Transformer | DeviceKind::Gyrator => 4,
        }
    }

    /// How many unknowns it has of its own.
    pub fn unknowns_wanted(self) -> usize
        ensures { result ≡ length (unknown_words self) }
    {
        match self {
            DeviceKind::Opamp => 1,
            DeviceKind::Passive
            | DeviceKind::Voltage
            | DeviceKind::Current
            | DeviceKind::CurrentByCurrent
            | DeviceKind::VoltageByCurrent => 2,
            DeviceKind::VoltageByVoltage | DeviceKind::CurrentByVoltage => 3,
            DeviceKind::Transformer | DeviceKind::Gyrator => 4,
        }
    }
}

// The directive that a word is, of either case.
fn directive(word: &str) -> Option<DeviceKind>
    ensures { result ≡ kind_beside (str_to_ascii_lowercase word.now) directives }
{
    if word.eq_ignore_ascii_case(".opamp") {
        Some(DeviceKind::Opamp)
    } else if word.eq_ignore_ascii_case(".transformer") {
        Some(DeviceKind::Transformer)
    } else if word.eq_ignore_ascii_case(".gyrator") {
        Some(DeviceKind::Gyrator)
    } else {
        None
    }
}

// The kind that a word's first letter tells.
fn kind_by_letter(word: &str) -> Option<DeviceKind>
    ensures { result ≡ kind_beside (take 1 (str_to_ascii_lowercase word.now)) letters }
{
    match word.as_bytes().first()?.to_ascii_lowercase() {
        b'r' | b'l' | b'c' => Some(DeviceKind::Passive),
        b'v' => Some(DeviceKind::Voltage),
        b'i' => Some(DeviceKind::Current),
        b'e' => Some(DeviceKind::VoltageByVoltage),
        b'g' => Some(DeviceKind::CurrentByVoltage),
        b'f' => Some(DeviceKind::CurrentByCurrent),
        b'h' => Some(DeviceKind::VoltageByCurrent),
        _ => None,
    }
}
