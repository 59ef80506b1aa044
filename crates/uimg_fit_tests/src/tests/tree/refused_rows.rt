//! Sources that are refused, with the line that the program prints, and sources that compile.
use super::super::answers::is_said;
use super::sources::{NAMED, source};
use std::alloc::{AllocError, Global};
use uimg_base::{Files, MemFiles};
use uimg_its::compile;

pub(super) fn answer<F: Files>(
    alloc: Global,
    text: &[u8],
    files: &mut F,
) -> Result<String, AllocError> {
    match compile(alloc, text, files) {
        Ok(_) => format!(in alloc; "compiled"),
        Err(fault) => format!(in alloc; "{fault}"),
    }
}

// The source names the files of the tests.
fn answered(alloc: Global, text: &[u8]) -> Result<String, AllocError> {
    answer(alloc, text, &mut MemFiles::new(&NAMED))
}

// Sources and their results.
const ROWS: [(&str, &str); 72] = [
    // The case refused-sources.
    ("", "I2 bad syntax at line 1"),
    ("/* open", "I1 bad token at line 1"),
    (
        "#include \"x\"",
        "I3 out of profile: preprocessor at line 1",
    ),
    (
        "/dts-v1/;\n/memreserve/ 0 1; / { };",
        "I3 out of profile: directive at line 2",
    ),
    (
        "/dts-v1/;\n/ { };\n/ { };",
        "I3 out of profile: second root at line 3",
    ),
    ("/dts-v1/;\n/ { a { };\nv; };", "I2 bad syntax at line 3"),
    ("/dts-v1/;\n/ { v = <08>; };", "I4 bad number at line 2"),
    (
        "/dts-v1/;\n/ { v = <4294967296>; };",
        "I4 bad number at line 2",
    ),
    ("/dts-v1/;\n/ { v = [0]; };", "I4 bad number at line 2"),
    (
        "/dts-v1/;\n/ { v = <(1)>; };",
        "I3 out of profile: expression at line 2",
    ),
    (
        "/dts-v1/;\n/ { v = 'a'; };",
        "I3 out of profile: character literal at line 2",
    ),
    (
        "/dts-v1/;\n/ { v = \"\\q\"; };",
        "I3 out of profile: escape at line 2",
    ),
    (
        "/dts-v1/;\n/ { v = /incbin/(\"a\"\n, 0, 1); };",
        "I3 out of profile: incbin range at line 3",
    ),
    (
        "/dts-v1/;\n/ { v = /incbin/(\"none\"); };",
        "I5 no file at line 2",
    ),
    (
        "/dts-v1/;\n/ {\nv = &ref; };",
        "I3 out of profile: reference at line 3",
    ),
    (
        "/dts-v1/;\n&ref { };",
        "I3 out of profile: reference at line 2",
    ),
    (
        "/dts-v1/;\n/ { };\n#endif",
        "I3 out of profile: preprocessor at line 3",
    ),
    // What the grammar has in another place, or not at all.
    ("/ { };", "I2 bad syntax at line 1"),
    ("/dts-v2/; / { };", "I3 out of profile: directive at line 1"),
    (
        "/dts-v1/; /dts-v1/; / { };",
        "I3 out of profile: directive at line 1",
    ),
    (
        "/dts-v1/; / { /incbin/(\"a\"); };",
        "I3 out of profile: directive at line 1",
    ),
    (
        "/dts-v1/; / { v = /bits/ 8 <1>; };",
        "I3 out of profile: directive at line 1",
    ),
    (
        "/dts-v1/; / { v = </dts-v1/>; };",
        "I3 out of profile: directive at line 1",
    ),
    (
        "/dts-v1/; / { /delete-node/ a; };",
        "I3 out of profile: directive at line 1",
    ),
    ("/dts-v1/; / { };;", "I2 bad syntax at line 1"),
    ("/dts-v1/; / { }; /", "I2 bad syntax at line 1"),
    ("/dts-v1/; / { }; / a", "I2 bad syntax at line 1"),
    (
        "/dts-v1/; / { v = <&ref>; };",
        "I3 out of profile: reference at line 1",
    ),
    (
        "/dts-v1/; / { v = <'a'>; };",
        "I3 out of profile: character literal at line 1",
    ),
    ("/dts-v1/; / { v = (1); };", "I2 bad syntax at line 1"),
    ("/dts-v1/; / { v = [(1)]; };", "I2 bad syntax at line 1"),
    ("/dts-v1/; / { v = <\"a\">; };", "I2 bad syntax at line 1"),
    ("/dts-v1/; / { v = <-1>; };", "I4 bad number at line 1"),
    ("/dts-v1/; / { v = <0x>; };", "I4 bad number at line 1"),
    (
        "/dts-v1/; / { v = <0x100000000>; };",
        "I4 bad number at line 1",
    ),
    ("/dts-v1/; / { v = <1 2L>; };", "I4 bad number at line 1"),
    ("/dts-v1/; / { v = [0g]; };", "I4 bad number at line 1"),
    (
        "/dts-v1/; / { v = \"a\" \"b\"; };",
        "I2 bad syntax at line 1",
    ),
    (
        "/dts-v1/; / { v = \"\\01\"; };",
        "I3 out of profile: escape at line 1",
    ),
    // Choices where the grammar leaves room, each a sentence of docs/DECISIONS.md. A missing file
    // is reported at its place, before a later fault.
    (
        "/dts-v1/; / { v = /incbin/(\"none\")\n]; };",
        "I5 no file at line 1",
    ),
    (
        "/dts-v1/; / { v = /incbin/(\n\"none\"\n); };",
        "I5 no file at line 1",
    ),
    (
        "/dts-v1/; / { data = /incbin/(\n\"none\"\n); };",
        "I5 no file at line 1",
    ),
    (
        "/dts-v1/; / { data =\n/incbin/(\"none\"); };",
        "I5 no file at line 2",
    ),
    (
        "/dts-v1/; / { data =\n/incbin/(\"none\")\n]; };",
        "I5 no file at line 2",
    ),
    // The line is that of the first byte of the word.
    ("/dts-v1/;\n/* open\n\n", "I1 bad token at line 2"),
    ("/dts-v1/;\n/ { v = \"open\n\n", "I1 bad token at line 2"),
    (
        "/dts-v1/;\n/ { v = \"\n\\q\n\";",
        "I3 out of profile: escape at line 2",
    ),
    // After the last word it is the last line.
    ("/dts-v1/;\n", "I2 bad syntax at line 1"),
    ("/dts-v1/;\n/ {", "I2 bad syntax at line 2"),
    ("\n\n", "I2 bad syntax at line 2"),
    // A bad escape is reported also where no string is allowed, and an unclosed string before it.
    ("\"\\q\"", "I3 out of profile: escape at line 1"),
    ("\"\\q", "I1 bad token at line 1"),
    // A comma by itself is not a cell; in a name word it is a bad one.
    ("/dts-v1/; / { v = < , >; };", "I2 bad syntax at line 1"),
    ("/dts-v1/; / { v = [ , ]; };", "I2 bad syntax at line 1"),
    ("/dts-v1/; / { v = <1,2>; };", "I4 bad number at line 1"),
    (
        "/dts-v1/; / { v = /incbin/(\"a\",0,1); };",
        "I2 bad syntax at line 1",
    ),
    // The root ends with its semicolon.
    ("/dts-v1/; / { }\n/ { };", "I2 bad syntax at line 2"),
    (
        "/dts-v1/; / {\n#include \"x\"\n };",
        "I2 bad syntax at line 2",
    ),
    // Any layout of a source is compiled.
    ("/dts-v1/;/{};", "compiled"),
    ("/dts-v1/ ; / { } ;", "compiled"),
    ("/dts-v1/;\x0b\x0c\r\n/{};// end", "compiled"),
    ("/**//dts-v1/;/{}/* } */;", "compiled"),
    ("/dts-v1/; / { a: b: c; };", "compiled"),
    ("/dts-v1/; / { a: b: c { }; c { }; };", "compiled"),
    ("/dts-v1/; / { v; v; v = <1>; };", "compiled"),
    (
        "/dts-v1/; / { #size-cells = <1>; a,b.c_d+e*f?g@h-1 { }; };",
        "compiled",
    ),
    ("/dts-v1/; / { 1:2 = [ ]; 0 { }; };", "compiled"),
    ("/dts-v1/; / { incbin; dts-v1 { }; };", "compiled"),
    // The sources that rows name.
    ("mixed-values", "compiled"),
    ("four-hash-fit", "compiled"),
    ("family", "compiled"),
    ("file-values", "compiled"),
];

#[test]
fn source_answers(rt: HostRuntime) {
    for (text, wanted) in &ROWS {
        let found = answered(rt.alloc(), source(text).as_bytes());
        is_said(&rt, found, wanted, text, 0);
    }
}

// Bytes that begin no word.
#[test]
fn stray_bytes(rt: HostRuntime) {
    for byte in *b"!$%\\~|^\0\x7f\xff" {
        let found = answered(rt.alloc(), &[byte]);
        is_said(&rt, found, "I1 bad token at line 1", "byte", byte as u64);
    }
}

// A beginning, how often both parts after it are repeated, these parts, the end, and the result: 64
// levels are compiled, and the brace that opens the 65th is refused; a name has at most 255 bytes,
// a label any number.
const LONG_ROWS: [(&str, usize, &str, &str, &str, &str); 7] = [
    ("/dts-v1/;\n/ {", 63, "\na {", " };", " };", "compiled"),
    (
        "/dts-v1/;\n/ {",
        64,
        "\na {",
        " };",
        " };",
        "I3 out of profile: depth at line 66",
    ),
    ("/dts-v1/;\n/ {\n", 255, "a", "", ";\n};", "compiled"),
    ("/dts-v1/;\n/ {\n", 255, "a", "", " { };\n};", "compiled"),
    (
        "/dts-v1/;\n/ {\n",
        256,
        "a",
        "",
        "\n= <1>;\n};",
        "I2 bad syntax at line 3",
    ),
    (
        "/dts-v1/;\n/ {\n",
        256,
        "a",
        "",
        "\n{ };\n};",
        "I2 bad syntax at line 3",
    ),
    ("/dts-v1/;\n/ {\n", 256, "a", "", ":\nb;\n};", "compiled"),
];

/// Returns a beginning, `count` times each of two parts, and an end.
pub(super) fn long_text(
    alloc: Global,
    head: &str,
    count: usize,
    one: &str,
    other: &str,
    tail: &str,
) -> Result<String, AllocError> {
    let mut text = String::from_str(alloc, head)?;
    for _ in 0..count {
        text.push_str(one)?;
    }
    for _ in 0..count {
        text.push_str(other)?;
    }
    text.push_str(tail)?;
    Ok(text)
}

fn answered_long(
    alloc: Global,
    head: &str,
    count: usize,
    one: &str,
    other: &str,
    tail: &str,
) -> Result<String, AllocError> {
    let text = long_text(alloc, head, count, one, other, tail)?;
    answered(alloc, text.as_bytes())
}

#[test]
fn long_sources(rt: HostRuntime) {
    for (head, count, one, other, tail, wanted) in &LONG_ROWS {
        let found = answered_long(rt.alloc(), head, *count, one, other, tail);
        is_said(&rt, found, wanted, tail, *count as u64);
    }
}

// A text that ends too early, at each of its words, is I2.
#[test]
fn every_cut(rt: HostRuntime) {
    let text = b"/dts-v1/ ; / { a : b = < 1 > , [ 00 ] , /incbin/ ( \"a\" ) ; c { d ; } ; } ; ";
    for n in 0..text.len() - 2 {
        if text[n] == b' ' {
            let found = answered(rt.alloc(), &text[..n]);
            is_said(&rt, found, "I2 bad syntax at line 1", "cut", n as u64);
        }
    }
    is_said(&rt, answered(rt.alloc(), text), "compiled", "whole", 0);
}
