//! The formats of lines, by name.

/// A format of lines.
#[derive(Clone, Copy, Debug, PartialEq, Eq)]
pub enum LineFormat {
    /// A JSON object.
    Json,
    /// A record of comma-separated values (RFC 4180), behind one with the names.
    Csv,
    /// Aligned columns for reading, behind a line with their names; for connections only.
    Text,
    /// Tab-separated values, as Zeek writes them: behind header lines with the fields' names and
    /// types, and before a footer.
    Zeek,
    /// An event of Suricata's eve.json; for connections only.
    Suricata,
    /// An event of the Elastic Common Schema; for connections only.
    Ecs,
}

/// Calls the named macro with the table of formats. A row has a format's name, its variant, and
/// whether its fields are fixed (then it prints connections only). `log_writer` writes the lines:
/// each match there has an arm for each format.
macro_rules! formats {
    ($then:ident $($given:tt)*) => {
        $then! {
            $($given)*
            "json" Json false;
            "csv" Csv false;
            "text" Text true;
            "zeek" Zeek false;
            "suricata" Suricata true;
            "ecs" Ecs true;
        }
    };
}

/// Expands to the names of the formats.
macro_rules! names_of {
    ($($name:literal $format:ident $has_own:literal;)*) => {
        &[$($name),*]
    };
}

/// Expands to the formats in the table's order.
macro_rules! variants_of {
    ($($name:literal $format:ident $has_own:literal;)*) => {
        &[$(LineFormat::$format),*]
    };
}

/// The name of a format. A variant without a row doesn't compile.
macro_rules! name_of {
    ($of:tt; $($name:literal $format:ident $has_own:literal;)*) => {
        match $of {
            $(LineFormat::$format => $name,)*
        }
    };
}

/// Whether a format's fields are fixed.
macro_rules! has_own {
    ($of:tt; $($name:literal $format:ident $has_own:literal;)*) => {
        match $of {
            $(LineFormat::$format => $has_own,)*
        }
    };
}

/// The names of the formats, the default first.
pub static FORMAT_NAMES: &[&str] = formats!(names_of);

/// The format of lines if none is named: the first of [`FORMAT_NAMES`].
pub const DEFAULT_FORMAT: LineFormat = LineFormat::Json;

static FORMATS: &[LineFormat] = formats!(variants_of);

impl LineFormat {
    /// Returns the format of this name.
    pub fn from_name(name: &str) -> Option<LineFormat> {
        FORMATS.iter().find(|format| format.name() == name).copied()
    }

    /// The name of the format.
    pub fn name(self) -> &'static str {
        formats!(name_of self;)
    }

    /// Returns whether its fields are fixed. Such a format prints connections only.
    pub fn has_own_fields(self) -> bool {
        formats!(has_own self;)
    }
}
