//! What a file is that is no PBF file, by how it begins, and what to do with it.

use pbfcut_cli::Program;

/// Bytes that some writers put before a text.
const BYTE_ORDER_MARK: &[u8] = &[0xef, 0xbb, 0xbf];

/// What a file is.
#[derive(Clone, Copy, PartialEq, Eq)]
pub(crate) enum Form {
    Gzip,
    Bzip2,
    Xz,
    Zip,
    O5m,
    /// A change file, as `.osc`.
    Change,
    /// The XML form of a map, as `.osm`.
    Xml,
    WebPage,
    GeoJson,
    Json,
    Opl,
    Other,
}

/// Whether the bytes have these in a row.
fn has(bytes: &[u8], wanted: &[u8]) -> bool {
    for offset in 0..bytes.len() {
        if bytes.get(offset..).unwrap_or(&[]).starts_with(wanted) {
            return true;
        }
    }
    false
}

/// Whether the bytes begin a line of OPL: a letter and a number.
fn is_opl(start: &[u8]) -> bool {
    match (start.first(), start.get(1)) {
        (Some(kind), Some(digit)) => b"nwrc".contains(kind) && digit.is_ascii_digit(),
        _ => false,
    }
}

/// What a file that is compressed or put together as a whole is, if this begins one.
fn archive(start: &[u8]) -> Option<Form> {
    if start.starts_with(&[0x1f, 0x8b]) {
        Some(Form::Gzip)
    } else if start.starts_with(b"BZh") {
        Some(Form::Bzip2)
    } else if start.starts_with(&[0xfd, b'7', b'z', b'X', b'Z']) {
        Some(Form::Xz)
    } else if start.starts_with(b"PK") {
        Some(Form::Zip)
    } else {
        None
    }
}

/// What a file with tags in angle brackets is.
fn markup(start: &[u8]) -> Form {
    if has(start, b"<osmChange") {
        Form::Change
    } else if has(start, b"<osm") || start.starts_with(b"<?xml") && !has(start, b"html") {
        Form::Xml
    } else {
        Form::WebPage
    }
}

/// What a JSON text is.
fn json_form(start: &[u8]) -> Form {
    let is_area = has(start, b"Feature") || has(start, b"Polygon") || has(start, b"coordinates");
    if is_area { Form::GeoJson } else { Form::Json }
}

/// What a file that begins so is, if it isn't PBF.
pub(crate) fn form_of(start: &[u8]) -> Form {
    if let Some(form) = archive(start) {
        return form;
    }
    if start.starts_with(&[0xff, 0xe0, 0x04]) {
        return Form::O5m;
    }
    let text = start.strip_prefix(BYTE_ORDER_MARK).unwrap_or(start);
    let text = text.trim_ascii_start();
    match text.first() {
        Some(b'<') => markup(text),
        Some(b'{' | b'[') => json_form(text),
        _ if is_opl(text) => Form::Opl,
        _ => Form::Other,
    }
}

impl Form {
    /// What it is, in words.
    pub(crate) fn words(self) -> &'static str {
        match self {
            Form::Gzip => "it is compressed as a whole, by gzip",
            Form::Bzip2 => "it is compressed as a whole, by bzip2",
            Form::Xz => "it is compressed as a whole, by xz",
            Form::Zip => "it is a ZIP archive, not a PBF file",
            Form::O5m => "it is an o5m file, not a PBF file",
            Form::Change => "it is a change file (.osc), which has no map",
            Form::Xml => "it is an XML file, not a PBF file",
            Form::WebPage => "it is a web page, not a PBF file",
            Form::GeoJson => "it is a GeoJSON file, not a PBF file",
            Form::Json => "it is a JSON text, not a PBF file",
            Form::Opl => "it is an OPL file, not a PBF file",
            Form::Other => "it does not begin as a PBF file does",
        }
    }

    /// The name that Osmium has for the form, if it reads it.
    pub(crate) fn of_osmium(self) -> Option<&'static str> {
        match self {
            Form::O5m => Some("o5m"),
            Form::Xml => Some("xml"),
            Form::Opl => Some("opl"),
            _ => None,
        }
    }

    /// What to do with a file that Osmium doesn't read as it is.
    pub(crate) fn advice(self) -> &'static str {
        match self {
            Form::Gzip => "this unpacks it: gunzip -c IN >UNPACKED",
            Form::Bzip2 => "this unpacks it: bunzip2 -c IN >UNPACKED",
            Form::Xz => "this unpacks it: unxz -c IN >UNPACKED",
            Form::Zip => "this unpacks it: unzip IN",
            Form::Change =>
                "this applies it to a map: osmium apply-changes MAP.osm.pbf IN -o NEW.osm.pbf",
            Form::WebPage => "the download failed: fetch the file again",
            Form::GeoJson => "is it the area? Then IN is missing: --polygon=FILE IN OUT",
            Form::Json =>
                "it may be a server's message that the download failed: look at it, and fetch the file again",
            _ => "'file IN' may know what it is; if it was downloaded, fetch it again",
        }
    }
}

/// The options of `osmium cat` by which it writes what the program reads.
pub(crate) fn osmium_target(program: Program) -> &'static str {
    match program {
        Program::Pbfcut => "-f pbf,pbf_compression=none -o RAW",
        Program::Pbfcutz => "-f pbf -o MAP.osm.pbf",
    }
}
