use crate::{Mark, Marked, split, split_marked, unquote};
use hs_text::{Field, Fields, TextList};
use std::alloc::{AllocError, Global};
use std::test::Fail;

/// IFS; a word, with `'` around quoted bytes and `!` before written ones; and each of its fields in `<` and `>`.
const CASES: [(Option<&str>, &str, &str); 27] = [
    (Some(" :"), " a::b ", "<a><><b>"),
    (None, "", ""),
    (None, " \t\n", ""),
    (None, " a\t\nb ", "<a><b>"),
    (None, "a:b", "<a:b>"),
    (Some(""), " a b ", "< a b >"),
    (Some(""), "", ""),
    (Some(":"), "a:", "<a>"),
    (Some(":"), ":", "<>"),
    (Some(":"), "::a", "<><><a>"),
    (Some(":"), " a : b ", "< a >< b >"),
    (Some(" :"), " a : b : ", "<a><b>"),
    (Some(": "), "a : : b", "<a><><b>"),
    (Some(" :"), " : a", "<><a>"),
    (Some("\n"), " a \nb", "< a ><b>"),
    (Some("xy"), "axybxyc", "<a><><b><><c>"),
    (None, "''", "<>"),
    (None, "'' ''", "<><>"),
    (None, " '' ", "<>"),
    (None, "a ''", "<a><>"),
    (None, "'a b' c", "<a b><c>"),
    (None, "a' 'b", "<a b>"),
    (Some(":"), "a!:b:c", "<a:b><c>"),
    (Some(":"), "':':", "<:>"),
    (Some(" :"), "a '':b", "<a><><b>"),
    (Some(" :"), "a :'':b", "<a><><b>"),
    (None, "! ", "< >"),
];

fn marked_of(alloc: Global, word: &str) -> Result<Marked, AllocError> {
    let mut marked = Marked::new(alloc);
    let mut quoted = false;
    let mut written = false;
    for byte in word.as_bytes() {
        if *byte == b'\'' {
            quoted = !quoted;
            marked.push(Mark::Quotes)?;
        } else if *byte == b'!' {
            written = true;
        } else if quoted {
            marked.push(Mark::Quoted(*byte))?;
        } else if written {
            marked.push(Mark::Written(*byte))?;
            written = false;
        } else {
            marked.push(Mark::Expanded(*byte))?;
        }
    }
    Ok(marked)
}

fn field_of(alloc: Global, word: &str) -> Result<Field, AllocError> {
    let mut field = Field::new(alloc);
    let mut quoted = false;
    for byte in word.as_bytes() {
        if *byte == b'\'' {
            quoted = !quoted;
        } else {
            field.push(*byte, quoted)?;
        }
    }
    Ok(field)
}

/// Each text in `<` and `>`.
fn shown(alloc: Global, texts: &TextList) -> Result<Vec<u8>, AllocError> {
    let mut out = Vec::new(alloc);
    for text in texts.as_slice() {
        out.push(b'<')?;
        out.extend_from_slice(text.as_slice())?;
        out.push(b'>')?;
    }
    Ok(out)
}

fn shows(alloc: Global, fields: &Fields, wanted: &str) -> Result<bool, AllocError> {
    let texts = unquote(alloc, fields)?;
    let out = shown(alloc, &texts)?;
    Ok(out.as_slice() == wanted.as_bytes())
}

fn bytes_of(ifs: Option<&str>) -> Option<&[u8]> {
    match ifs {
        Some(text) => Some(text.as_bytes()),
        None => None,
    }
}

fn gives(alloc: Global, ifs: Option<&str>, word: &str, wanted: &str) -> Result<bool, AllocError> {
    let marked = marked_of(alloc, word)?;
    let fields = split_marked(alloc, &marked, bytes_of(ifs))?;
    shows(alloc, &fields, wanted)
}

fn splits(alloc: Global, ifs: Option<&str>, word: &str, wanted: &str) -> Result<bool, AllocError> {
    let field = field_of(alloc, word)?;
    let fields = split(alloc, &field, bytes_of(ifs))?;
    shows(alloc, &fields, wanted)
}

#[test]
fn words_become_fields(rt: HostRuntime) -> Result<(), Fail> {
    for (ifs, word, wanted) in &CASES {
        assert!(rt; gives(rt.alloc(), *ifs, word, wanted)?, "{word:?}");
    }
    Ok(())
}

#[test]
fn fields_are_split(rt: HostRuntime) -> Result<(), Fail> {
    assert!(rt; splits(rt.alloc(), Some(" :"), " a::b ", "<a><><b>")?);
    assert!(rt; splits(rt.alloc(), None, "' 'a b", "< a><b>")?);
    assert!(rt; splits(rt.alloc(), None, "", "")?);
    Ok(())
}

#[test]
fn marks_stay_in_a_copy(rt: HostRuntime) -> Result<(), Fail> {
    let marked = marked_of(rt.alloc(), "a' '")?;
    assert_eq!(rt; marked.clone()?.as_slice().len(), 4);
    Ok(())
}
