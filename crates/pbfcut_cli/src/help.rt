//! What help says, to someone who makes maps. Lines have at most 80 columns.

/// What the help of a program says that the other's does not.
#[derive(Drop)]
pub(crate) struct Help {
    /// The name that the program is called by.
    pub(crate) name: &'static str,
    pub(crate) about: &'static str,
    /// What IN is.
    pub(crate) input: &'static str,
    pub(crate) digests: &'static str,
    /// The same of `check`, which has no OUT.
    pub(crate) digest_of_input: &'static str,
    pub(crate) usage_of_extract: &'static str,
    /// What the program's help says after the commands.
    pub(crate) after: &'static str,
    /// What the help of each command says after its arguments.
    pub(crate) extract: &'static str,
    pub(crate) convert: &'static str,
    pub(crate) check: &'static str,
    pub(crate) show: &'static str,
    pub(crate) blobs: &'static str,
}

/// The text of a help after its arguments: what is said, what of blobs, the examples, and what exit status 3 means there.
macro_rules! after_arguments {
    ($text:literal, $blobs:literal, $examples:literal, $files:literal) => {
        concat!(
            $text,
            "\n",
            $blobs,
            "\n",
            $examples,
            "\n\
            Exit status:\n  \
              0  done, or help was asked for\n  \
              1  IN is refused: standard error says at which byte of IN, and why\n  \
              2  the command line, the box or the polygon is wrong\n  \
              3  ",
            $files,
            "\n  \
              4  out of memory\n  \
              5  IN changed while it was read\n\
            141  nobody reads standard output any more"
        )
    };
}

/// The text of the program's help, or of a command's that writes OUT, after its arguments.
macro_rules! after_arguments_of_writer {
    ($text:literal, $blobs:literal, $examples:literal) => {
        after_arguments!(
            $text,
            $blobs,
            $examples,
            "IN can't be opened or is a pipe, OUT exists or can't be made, or reading\n     \
                 or writing failed"
        )
    };
}

/// The text of a command's help that only prints, after its arguments.
macro_rules! after_arguments_of_reader {
    ($text:literal, $blobs:literal, $examples:literal) => {
        after_arguments!(
            $text,
            $blobs,
            $examples,
            "IN can't be opened or used, or reading or writing failed"
        )
    };
}

/// What the help of `extract` says after its arguments, with what is said of blobs and the examples.
macro_rules! after_extract {
    ($blobs:literal, $examples:literal) => {
        after_arguments_of_writer!(
            "The box is four numbers in degrees of WGS84 with commas between them, in the\n\
            order west,south,east,north: the longitudes of its west and east edge from -180\n\
            to 180, and the latitudes of its south and north edge from -90 to 90. A number\n\
            has up to nine digits after the point. West may not be greater than east: a box\n\
            may not cross the antimeridian. A polygon is a .poly file, as published with\n\
            extracts, or a GeoJSON file, and is cut out in the same way.\n\
            \n\
            OUT contains, in the order of IN and with all fields:\n  \
              - the nodes in the box and on its edges\n  \
              - each way that has a node in the box, whole, with all of its nodes, wherever\n    \
                they are\n  \
              - each relation that has one of these nodes or ways as a member; with\n    \
                --parents also each relation that has a kept relation as a member, level by\n    \
                level\n  \
              - with -s smart what --parents keeps, and all nodes and ways of each\n    \
                multipolygon that has a kept node or way as a member, with all nodes of\n    \
                these ways; --types=multipolygon,boundary or --types=any for others\n\
            The command prints how many entities it wrote, as 'nodes 3 ways 0 relations 0'.\n\
            IN must be a file, not a pipe: it is read twice if no node comes after a way,\n\
            otherwise three times, and with --parents once more. With -s smart it is read\n\
            two or three times, and must be sorted by type.\n",
            $blobs,
            $examples
        )
    };
}

/// The same of `convert`.
macro_rules! after_convert {
    ($blobs:literal, $examples:literal) => {
        after_arguments_of_writer!(
            "OUT has the same nodes, ways and relations as IN in the same order, with dense\n\
            nodes, and with at most 8000 entities in a block. Its form is fixed: converting\n\
            OUT again gives the same bytes. What the format does not name is left out. The\n\
            command prints how many entities it wrote, as 'nodes 3 ways 0 relations 0'.\n\
            IN is read twice, so it must be a file, not a pipe.\n",
            $blobs,
            $examples
        )
    };
}

/// The same of `check`.
macro_rules! after_check {
    ($blobs:literal, $examples:literal) => {
        after_arguments_of_reader!(
            "If no field of IN has a fault, the command prints how many entities IN has, as\n\
            'nodes 3 ways 0 relations 0'. Otherwise it refuses IN at its first fault. IN may\n\
            be a pipe, since it is read once.\n",
            $blobs,
            $examples
        )
    };
}

/// The same of `show`.
macro_rules! after_show {
    ($blobs:literal, $examples:literal) => {
        after_arguments_of_reader!(
            "Lines that begin with H are of the header. Each other line is an entity, in the\n\
            order of IN:\n  \
              N 1 51500000000 -120000000 v2 \"highway\"=\"stop\"\n      \
                  a node: its id, its latitude and its longitude\n  \
              W 7 v1 \"highway\"=\"path\" n1 n2 n3\n      \
                  a way: its id, and at the end the ids of its nodes\n  \
              R 8 v1 \"type\"=\"route\" w7@\"forward\"\n      \
                  a relation: its id, and last its members with their roles; n is a node,\n      \
                  w a way, r a relation\n\
            Latitudes and longitudes are nanodegrees of WGS84: 1000000000 is one degree, and\n\
            a negative number lies south or west. Between them are, as far as IN has them: v\n\
            the version, t the time in milliseconds since 1970-01-01 UTC, c the changeset, u\n\
            the user's number, s the user's name, d1 visible or d0 deleted, and the tags.\n\
            With --dates a time from 1970 to 2099 is printed as t2009-02-13T23:31:30.000Z.\n\
            If IN is refused, nothing is printed. IN is read twice, so it must be a file,\n\
            not a pipe.\n",
            $blobs,
            $examples
        )
    };
}

/// The same of `blobs`.
macro_rules! after_blobs {
    ($blobs:literal, $examples:literal) => {
        after_arguments_of_reader!(
            "The command prints a line for each frame of IN, as '19 OSMData 25 23': the byte\n\
            of IN at which the frame begins, its type, and the lengths in bytes of its blob\n\
            and of the payload in the blob. For a frame of another type than OSMHeader and\n\
            OSMData it prints the type in quotes, and 'skipped' instead of the last length.\n\
            It does not read payloads; 'check' validates them. If IN is refused, the lines\n\
            of the frames before the fault are printed. IN may be a pipe.\n",
            $blobs,
            $examples
        )
    };
}

/// What the help of `pack` says after its arguments.
pub(crate) const AFTER_PACK: &str = after_arguments_of_writer!(
    "OUT has the same bytes in its blobs, compressed by zlib where they get shorter by\n\
    it. 'pbfcutz unpack' gives a raw IN again. IN has raw or zlib blobs. It is\n\
    validated first, and read twice, so it must be a file, not a pipe. The command\n\
    prints how many entities there are, as 'nodes 3 ways 0 relations 0'.\n",
    "If a run stops early there is no OUT.\n",
    "Example:\n  \
      pbfcutz pack london.raw.osm.pbf london.osm.pbf\n"
);

/// The same of `unpack`.
pub(crate) const AFTER_UNPACK: &str = after_arguments_of_writer!(
    "OUT has the same bytes in its blobs, raw. IN is validated first, and read twice,\n\
    so it must be a file, not a pipe. The command prints how many entities there\n\
    are, as 'nodes 3 ways 0 relations 0'.\n",
    "IN has zlib or raw blobs, and OUT has raw ones. If a run stops early there is no\n\
    OUT.\n",
    "Example:\n  \
      pbfcutz unpack london.osm.pbf london.raw.osm.pbf\n"
);

/// The same of `info`.
pub(crate) const AFTER_INFO: &str = after_arguments_of_reader!(
    "The command prints a line for each field of the header, as 'pbfcutz show' does:\n\
    the box and the features are what the file says of itself. Then it prints how\n\
    blobs are stored, as 'H stored \"zlib\"', \"raw\" or \"mixed\", and how many frames\n\
    IN has, as 'H frames OSMHeader 1 OSMData 25 other 0'. It reads all frames, and\n\
    validates them and the header, but not the entities. IN may be a pipe.\n\
    With --json the same is printed as a JSON object on one line, by the words of\n\
    the lines: {\"required\":[..],\"optional\":[..],\"stored\":\"zlib\",\"frames\":{..}}\n",
    "IN has zlib or raw blobs.\n",
    "Examples:\n  \
      pbfcutz info england.osm.pbf\n  \
      pbfcutz info --json england.osm.pbf | python3 -m json.tool\n"
);

/// What `--version` prints after the name.
pub(crate) const PROGRAM_VERSION: &str = "1.0.0 (rattle-kit-13f logic dac8208d650f15bf)";

pub(crate) const OUTPUT: &str = "The file to write; it must not exist";

pub(crate) const DATES: &str = "Print times from 1970 to 2099 as dates";

pub(crate) const JSON: &str = "Print a JSON object instead of lines";

pub(crate) const PROGRESS: &str = "Show progress on standard error";

pub(crate) const PARENTS: &str = "Also keep relations that contain kept ones";

pub(crate) const STRATEGY: &str = "What is kept: complete_ways, or smart";

pub(crate) const WHOLE_TYPES: &str = "Types that smart keeps whole, with commas";

pub(crate) const RAW_BLOBS: &str = "Write raw blobs: OUT is not compressed";

pub(crate) const BOX: &str = "Edges of the box, in degrees; also --bbox";

pub(crate) const POLYGON: &str = "Cut out a polygon: a .poly or GeoJSON file";

pub(crate) const CONFIG: &str = "Cut out several areas: a JSON file names them";

pub(crate) const DIRECTORY: &str = "Where the files are that --config names";

pub(crate) const ANY_OUTPUT: &str = "The file to write, or - for standard output";

pub(crate) const OPTION: &str = "The file to write, instead of the last argument";

pub(crate) const OVERWRITE: &str = "Replace OUT if it exists";

pub(crate) const EXTRACT: &str = "Cut a box or a polygon out of IN into OUT, with complete ways";

pub(crate) const CONVERT: &str =
    "Write the header and all entities of IN to OUT, in one fixed form";

pub(crate) const PACK: &str = "Write the bytes of IN to OUT with compressed blobs";

pub(crate) const UNPACK: &str = "Write the bytes of IN to OUT with raw blobs";

pub(crate) const INFO: &str = "Print the header of IN, and count its frames";

pub(crate) const CHECK: &str = "Validate all of IN, and count its nodes, ways and relations";

pub(crate) const SHOW: &str = "Print the header and all nodes, ways and relations of IN as text";

pub(crate) const BLOBS: &str = "List the frames of IN: where they are, their types and sizes";

/// What pbfcut's help says.
pub(crate) const OF_PBFCUT: Help = Help {
    name: "pbfcut",
    about: "Cut a box or a polygon out of an OpenStreetMap PBF file; validate and print\nsuch files",
    input: "The OpenStreetMap PBF file to read; its blobs must be raw",
    digests: "Print the SHA-256 digests of IN and OUT",
    digest_of_input: "Print the SHA-256 digest of IN",
    usage_of_extract: "pbfcut extract [OPTIONS] <--box=W,S,E,N|--polygon=FILE> <IN> <OUT>",
    after: after_arguments_of_writer!(
        "'pbfcut help COMMAND' prints what a command does, its units and an example.\n",
        "pbfcut reads and writes files with raw blobs, and refuses compressed ones.\n\
        Published files are compressed: pbfcutz, which takes the same words, cuts them\n\
        and writes a compressed file.\n",
        "Example, which cuts London out of a published file of England:\n  \
          pbfcutz extract --box=-0.5,51.25,0.3,51.7 england.osm.pbf london.osm.pbf\n"
    ),
    extract: after_extract!(
        "IN must have raw blobs, and OUT has raw blobs. Published files are compressed:\n\
        'pbfcutz extract' cuts them, and writes a compressed file.\n\
        A run that stops early may leave an incomplete OUT: delete it.\n",
        "Examples, which cut London out of a published file of England:\n  \
          pbfcutz extract --box=-0.5,51.25,0.3,51.7 england.osm.pbf london.osm.pbf\n\
        or, with a raw file between:\n  \
          pbfcutz convert --raw england.osm.pbf england.raw.osm.pbf\n  \
          pbfcut extract --box=-0.5,51.25,0.3,51.7 england.raw.osm.pbf cut.osm.pbf\n"
    ),
    convert: after_convert!(
        "IN must have raw blobs, and OUT has raw blobs. Published files are compressed:\n\
        'pbfcutz convert' reads them, and compresses OUT.\n\
        A run that stops early may leave an incomplete OUT: delete it.\n",
        "Example:\n  \
          pbfcutz convert --raw london.osm.pbf london.raw.osm.pbf\n  \
          pbfcut convert london.raw.osm.pbf plain.osm.pbf\n"
    ),
    check: after_check!(
        "IN must have raw blobs. Published files are compressed: 'pbfcutz check' reads\n\
        them.\n",
        "Examples:\n  \
          pbfcutz convert --raw london.osm.pbf london.raw.osm.pbf\n  \
          pbfcut check london.raw.osm.pbf\n\
        or, with osmium and without a raw file:\n  \
          osmium cat england.osm.pbf -f pbf,pbf_compression=none -o - |\n    \
            pbfcut check /dev/stdin\n"
    ),
    show: after_show!(
        "IN must have raw blobs. Published files are compressed: 'pbfcutz show' reads\n\
        them.\n",
        "Example:\n  \
          pbfcutz convert --raw london.osm.pbf london.raw.osm.pbf\n  \
          pbfcut show --dates london.raw.osm.pbf\n"
    ),
    blobs: after_blobs!(
        "IN must have raw blobs. Published files are compressed: 'pbfcutz blobs' reads\n\
        them.\n",
        "Example:\n  \
          pbfcutz convert --raw london.osm.pbf london.raw.osm.pbf\n  \
          pbfcut blobs london.raw.osm.pbf\n"
    ),
};

/// What pbfcutz's help says.
pub(crate) const OF_PBFCUTZ: Help = Help {
    name: "pbfcutz",
    about: "Cut a box or a polygon out of a compressed OpenStreetMap PBF file; validate\nand print such files",
    input: "The OpenStreetMap PBF file to read; its blobs are raw or zlib",
    digests: "Print the SHA-256 digests of IN and OUT",
    digest_of_input: "Print the SHA-256 digest of IN",
    usage_of_extract: "pbfcutz extract [OPTIONS] <--box=W,S,E,N|--polygon=FILE> <IN> <OUT>",
    after: after_arguments_of_writer!(
        "'pbfcutz help COMMAND' prints what a command does, its units and an example.\n",
        "pbfcutz takes the words of pbfcut. It reads files whose blobs are compressed by\n\
        zlib, as published files are, or raw. It compresses what it writes; with --raw\n\
        it does not.\n",
        "Example, which cuts London out of a published file of England:\n  \
          pbfcutz extract --box=-0.5,51.25,0.3,51.7 england.osm.pbf london.osm.pbf\n"
    ),
    extract: after_extract!(
        "IN has zlib or raw blobs, and OUT has zlib blobs; with --raw it has raw ones.\n\
        If a run stops early there is no OUT.\n\
        \n\
        'pbfcutz extract --config=FILE IN' cuts several areas in one run, each into a\n\
        file of its own. They are named in a JSON file, as for 'osmium extract -c':\n  \
          {\"extracts\": [{\"output\": \"a.osm.pbf\", \"bbox\": [-0.5, 51.25, 0.3, 51.7]},\n                \
                        {\"output\": \"b.osm.pbf\", \"polygon\": {\"file_name\": \"b.poly\"}}]}\n\
        The outputs are in the folder of -d, or in the \"directory\" that the file names.\n",
        "Example, which cuts London out of a published file of England:\n  \
          pbfcutz extract --box=-0.5,51.25,0.3,51.7 england.osm.pbf london.osm.pbf\n"
    ),
    convert: after_convert!(
        "IN has zlib or raw blobs, and OUT has zlib blobs; with --raw it has raw ones.\n\
        If a run stops early there is no OUT.\n",
        "Examples, the second of which unpacks a file:\n  \
          pbfcutz convert england.osm.pbf plain.osm.pbf\n  \
          pbfcutz convert --raw england.osm.pbf england.raw.osm.pbf\n"
    ),
    check: after_check!(
        "IN has zlib or raw blobs. A fault in a compressed blob is named by the byte of\n\
        IN where the frame begins, and by the byte of the payload.\n",
        "Example:\n  \
          pbfcutz check england.osm.pbf\n"
    ),
    show: after_show!(
        "IN has zlib or raw blobs.\n",
        "Example:\n  \
          pbfcutz show --dates england.osm.pbf\n"
    ),
    blobs: after_blobs!(
        "IN has zlib or raw blobs. The bytes and lengths printed are those of IN with its\n\
        blobs unpacked; a refusal names a byte of IN as it is.\n",
        "Example:\n  \
          pbfcutz blobs england.osm.pbf\n"
    ),
};
