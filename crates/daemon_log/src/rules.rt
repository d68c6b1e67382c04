//! The rules of descriptions, in words.

/// What the rule with this number asks for, as `docs/FORMATS.md` lists them.
pub fn rule_text(number: u8) -> &'static str {
    match number {
        1 => "the text has at most 16777216 bytes",
        2 => "no key is unknown or missing, and each is of its kind",
        3 => "the schema is 1 or 2",
        4 => "a NetId is six numbers from 0 to 255, and no two routes have the same",
        5 => "the rights of a route are read, write or control",
        6 =>
            "there are at most 1000 types, and a type's name is an identifier that no other type has",
        7 =>
            "a structure has 1 to 1000 members of earlier types, an enumeration 1 to 1000 values in the range of its base",
        8 =>
            "an array or a structure has at most 1048576 elements or bytes, and structures are nested at most 16 deep",
        9 =>
            "there are 1 to 16 ports, each with a number of its own, a name of at most 16 bytes, a version, areas and at most 10000 symbols",
        10 => "a symbol's name is a name that no earlier symbol of its port has, or begins",
        11 => "a symbol's type is a type text that names only types of the list",
        12 =>
            "a symbol lies within its area, which is inputs, outputs, memory or data, and on no byte of an earlier symbol",
        13 =>
            "an initial value is hexadecimal text of the symbol's size, a comment is printable, and writers are 1 to 64 NetIds",
        14 =>
            "a signal is one that there is, of one symbol alone, and the symbol's type is a plain one",
        15 => "the upload of a port has at most 2000000 bytes",
        _ => "it is a TOML document",
    }
}
