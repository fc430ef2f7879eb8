//! Expressions with their values, by the standard and by C.

ghost use Rattle.std.specs.Prelude.{◌≡◌, None, IfOk};
ghost use Rattle.std.specs.Fmt.{signed_decimal};
ghost use Rattle.sh_arith.specs.Told as spec;

use crate::{ArithErr, Assigned, Names, evaluate};
use hs_text::Text;
use std::alloc::{AllocError, Global};
use std::test::Fail;

/// Names in memory, which tell exactly one table. What was assigned counts before the values at the start, and the newest
/// first. A look-up is a scan.
#[derive(Drop)]
struct Told {
    alloc: Global,
    values: Vec<(Text, Text)>,
    read_only: Vec<Text>,
    made: Vec<(Text, i64)>,
}

impl Names for Told {
    type Halt = AllocError;

    ghost agrees = { λ s w. w ≡ spec.table_of s.values.items s.read_only.items s.made.items };

    ghost get_halts = { λ _ _ _. Unit {0} };

    ghost unmade_halts = { λ _ _ _ _ _. Unit {0} };

    ghost made_halts = { λ _ _ _ _ _. ⊥ };

    fn get(&mut self, name: &[u8]) -> Result<Option<Text>, AllocError> {
        match newest(&self.made, name) {
            Some(number) => {
                let value = decimal(self.alloc, number)?;
                Ok(Some(value))
            }
            None => value_in(&self.values, name),
        }
    }

    fn set(&mut self, name: &[u8], value: i64) -> Result<Assigned, AllocError> {
        if listed(&self.read_only, name) {
            return Ok(Assigned::ReadOnly);
        }
        let name = Text::from_slice(self.alloc, name)?;
        self.made.push((name, value))?;
        Ok(Assigned::Yes)
    }
}

/// The number that was assigned to a name last.
fn newest(made: &[(Text, i64)], name: &[u8]) -> Option<i64>
    ensures { result ≡ spec.newest None made.now name.now }
{
    let mut found = None;
    for assignment in made {
        if name == assignment.0.as_slice() {
            found = Some(assignment.1);
        }
    }
    found
}

fn value_in(values: &[(Text, Text)], name: &[u8]) -> Result<Option<Text>, AllocError>
    ensures { IfOk result (λ value. value ≡ spec.value_in values.now name.now) }
{
    for entry in values {
        if entry.0.as_slice() == name {
            let value = entry.1.clone()?;
            return Ok(Some(value));
        }
    }
    Ok(None)
}

fn listed(names: &[Text], name: &[u8]) -> bool
    ensures { result ≡ spec.listed names.now name.now }
{
    for entry in names {
        if entry.as_slice() == name {
            return true;
        }
    }
    false
}

fn decimal(alloc: Global, number: i64) -> Result<Text, AllocError>
    ensures { IfOk result (λ digits. digits ≡ signed_decimal number) }
{
    let digits = format!(in alloc; "{number}")?;
    Text::from_slice(alloc, digits.as_bytes())
}

/// What an expression gave.
#[derive(Clone, Copy, Debug, PartialEq, Eq)]
enum Gave {
    Number(i64),
    Bad(usize),
    DivideByZero,
    BadShift,
}

/// Names with values that are numbers, and some that are none. `fixed` is read only.
fn names(alloc: Global) -> Result<Told, AllocError> {
    let mut told = Told {
        alloc,
        values: Vec::new(alloc),
        read_only: Vec::new(alloc),
        made: Vec::new(alloc),
    };
    let values = [
        ("a", "5"),
        ("b", "-3"),
        ("hex", "0x1F"),
        ("oct", "017"),
        ("null", ""),
        ("wide", " +12\t"),
        ("least", "-9223372036854775808"),
        ("beyond", "9223372036854775808"),
        ("word", "12x"),
        ("blank", " "),
        ("two", "1 2"),
        ("sum", "1+2"),
        ("fixed", "7"),
    ];
    for (name, value) in values.iter() {
        let name = Text::from_slice(alloc, name.as_bytes())?;
        let value = Text::from_slice(alloc, value.as_bytes())?;
        told.values.push((name, value))?;
    }
    let fixed = Text::from_slice(alloc, b"fixed")?;
    told.read_only.push(fixed)?;
    Ok(told)
}

fn outcome(alloc: Global, text: &str) -> Result<Gave, AllocError> {
    let mut told = names(alloc)?;
    outcome_in(alloc, text, &mut told)
}

fn outcome_in(alloc: Global, text: &str, told: &mut Told) -> Result<Gave, AllocError> {
    match evaluate(alloc, text.as_bytes(), told) {
        Ok(number) => Ok(Gave::Number(number)),
        Err(ArithErr::Bad { place }) => Ok(Gave::Bad(place)),
        Err(ArithErr::DivideByZero) => Ok(Gave::DivideByZero),
        Err(ArithErr::BadShift) => Ok(Gave::BadShift),
        Err(ArithErr::NoMemory) => Err(AllocError),
        Err(ArithErr::Halt(error)) => Err(error),
    }
}

/// The first line of a table whose expression gives something else.
fn first_wrong<'a>(
    alloc: Global,
    table: &[(&'a str, Gave)],
) -> Result<Option<&'a str>, AllocError> {
    for (text, expected) in table.iter() {
        if outcome(alloc, text)? != *expected {
            return Ok(Some(*text));
        }
    }
    Ok(None)
}

#[test]
fn operators_give_what_c_gives(rt: HostRuntime) -> Result<(), Fail> {
    let table = [
        ("1<<62", Gave::Number(4611686018427387904)),
        ("9223372036854775807+1", Gave::Number(i64::MIN)),
        ("0", Gave::Number(0)),
        (" \t7\n", Gave::Number(7)),
        ("017", Gave::Number(15)),
        ("0x1F", Gave::Number(31)),
        ("0Xaf", Gave::Number(175)),
        ("1+2*3", Gave::Number(7)),
        ("(1+2)*3", Gave::Number(9)),
        ("10-2-3", Gave::Number(5)),
        ("100/10/5", Gave::Number(2)),
        ("-7%3", Gave::Number(-1)),
        ("7%-3", Gave::Number(1)),
        ("-7/2", Gave::Number(-3)),
        ("2+3<<1", Gave::Number(10)),
        ("1<<2<<3", Gave::Number(32)),
        ("-8>>1", Gave::Number(-4)),
        ("-1>>63", Gave::Number(-1)),
        ("1<<63", Gave::Number(i64::MIN)),
        ("1<2<3", Gave::Number(1)),
        ("3>2>1", Gave::Number(0)),
        ("2>=2", Gave::Number(1)),
        ("2<=1", Gave::Number(0)),
        ("2==2!=0", Gave::Number(1)),
        ("6&3", Gave::Number(2)),
        ("6|3", Gave::Number(7)),
        ("6^3", Gave::Number(5)),
        ("1|2^3&4", Gave::Number(3)),
        ("5&6==6", Gave::Number(1)),
        ("-1&255", Gave::Number(255)),
        ("~5", Gave::Number(-6)),
        ("!5+1", Gave::Number(1)),
        ("!!5", Gave::Number(1)),
        ("--3", Gave::Number(3)),
        ("1--1", Gave::Number(2)),
        ("2&&3", Gave::Number(1)),
        ("0||5", Gave::Number(1)),
        ("1||0&&0", Gave::Number(1)),
        ("0?1:0?2:3", Gave::Number(3)),
        ("1?0?4:5:6", Gave::Number(5)),
    ];
    assert_eq!(rt; first_wrong(rt.alloc(), &table)?, None);
    Ok(())
}

#[test]
fn edges_of_64_bits_wrap_or_fail(rt: HostRuntime) -> Result<(), Fail> {
    let table = [
        ("-9223372036854775807-2", Gave::Number(i64::MAX)),
        ("(-9223372036854775807-1)/-1", Gave::Number(i64::MIN)),
        ("(-9223372036854775807-1)%-1", Gave::Number(0)),
        ("-(-9223372036854775807-1)", Gave::Number(i64::MIN)),
        ("4611686018427387904*2", Gave::Number(i64::MIN)),
        ("least/-1", Gave::Number(i64::MIN)),
        ("1/0", Gave::DivideByZero),
        ("1%0", Gave::DivideByZero),
        ("1<<64", Gave::BadShift),
        ("1<<-1", Gave::BadShift),
        ("1>>64", Gave::BadShift),
        ("9223372036854775808", Gave::Bad(0)),
        ("0x8000000000000000", Gave::Bad(0)),
    ];
    assert_eq!(rt; first_wrong(rt.alloc(), &table)?, None);
    Ok(())
}

#[test]
fn names_are_read_and_assigned(rt: HostRuntime) -> Result<(), Fail> {
    let table = [
        ("a+b", Gave::Number(2)),
        ("hex+oct", Gave::Number(46)),
        ("null+unset", Gave::Number(0)),
        ("wide", Gave::Number(12)),
        ("fixed", Gave::Number(7)),
        ("1+beyond", Gave::Bad(2)),
        ("word", Gave::Bad(0)),
        ("blank", Gave::Bad(0)),
        ("two", Gave::Bad(0)),
        ("sum", Gave::Bad(0)),
        ("c=d=3, c", Gave::Bad(5)),
        ("(c=d=3)+c*10+d*100", Gave::Number(333)),
        ("(a+=2)*10+a", Gave::Number(77)),
        ("(a<<=2)+(b-=1)", Gave::Number(16)),
        ("a+=(a=1)", Gave::Number(6)),
        ("(a=9)*0+a", Gave::Number(9)),
        ("1+(fixed=2)", Gave::Bad(3)),
        ("0&&(a=9);", Gave::Bad(8)),
        ("(0&&(a=9))+a", Gave::Number(5)),
        ("(1||(a=9))+a", Gave::Number(6)),
        ("(1?2:(a=9))+a", Gave::Number(7)),
        ("(0&&1/0)+(1||word)", Gave::Number(1)),
        ("0?fixed=1:4", Gave::Number(4)),
        ("a?b=2:3", Gave::Number(2)),
    ];
    assert_eq!(rt; first_wrong(rt.alloc(), &table)?, None);
    Ok(())
}

#[test]
fn the_first_bad_token_is_told(rt: HostRuntime) -> Result<(), Fail> {
    let table = [
        ("1+", Gave::Bad(2)),
        ("", Gave::Bad(0)),
        (" ", Gave::Bad(1)),
        ("1 2", Gave::Bad(2)),
        ("08", Gave::Bad(0)),
        ("1a", Gave::Bad(0)),
        ("0x", Gave::Bad(0)),
        ("(1", Gave::Bad(2)),
        ("1)", Gave::Bad(1)),
        ("1=2", Gave::Bad(1)),
        ("(a)=2", Gave::Bad(3)),
        ("a+b=2", Gave::Bad(3)),
        ("-a=2", Gave::Bad(2)),
        ("1?a:b=2", Gave::Bad(5)),
        ("1?2", Gave::Bad(3)),
        ("1:2", Gave::Bad(1)),
        ("1**2", Gave::Bad(2)),
        ("1$", Gave::Bad(1)),
        ("a++", Gave::Bad(3)),
        ("1/0)", Gave::Bad(3)),
    ];
    assert_eq!(rt; first_wrong(rt.alloc(), &table)?, None);
    Ok(())
}

/// An expression in this many brackets.
fn in_brackets(alloc: Global, count: usize) -> Result<Vec<u8>, AllocError> {
    let mut text = Vec::new(alloc);
    for _ in 0..count {
        text.push(b'(')?;
    }
    text.push(b'1')?;
    for _ in 0..count {
        text.push(b')')?;
    }
    Ok(text)
}

#[test]
fn a_hundred_brackets_may_be_open(rt: HostRuntime) -> Result<(), Fail> {
    let alloc = rt.alloc();
    let mut told = names(alloc)?;
    let most = in_brackets(alloc, 100)?;
    assert!(rt; evaluate(alloc, &most, &mut told) == Ok(1));
    let more = in_brackets(alloc, 101)?;
    assert!(rt; evaluate(alloc, &more, &mut told) == Err(ArithErr::Bad { place: 100 }));
    Ok(())
}

#[test]
fn what_was_assigned_before_an_error_stays(rt: HostRuntime) -> Result<(), Fail> {
    let alloc = rt.alloc();
    let mut told = names(alloc)?;
    assert!(rt; evaluate(alloc, b"(a=2)+1/0", &mut told) == Err(ArithErr::DivideByZero));
    assert!(rt; evaluate(alloc, b"a", &mut told) == Ok(2));
    assert!(rt; evaluate(alloc, b"(a=3)+", &mut told) == Err(ArithErr::Bad { place: 6 }));
    assert!(rt; evaluate(alloc, b"a", &mut told) == Ok(2));
    Ok(())
}

#[test]
fn names_hold_what_was_assigned(rt: HostRuntime) -> Result<(), Fail> {
    let alloc = rt.alloc();
    let table = [
        ("a=b=3", Gave::Number(3)),
        ("a*10+b", Gave::Number(33)),
        ("a=(b=a+1)*2", Gave::Number(8)),
        ("a*10+b", Gave::Number(84)),
        ("fixed=1", Gave::Bad(0)),
        ("fixed+a", Gave::Number(15)),
        ("unset+=-2", Gave::Number(-2)),
        ("unset", Gave::Number(-2)),
    ];
    let mut told = names(alloc)?;
    for (text, expected) in table.iter() {
        assert!(rt; outcome_in(alloc, text, &mut told)? == *expected);
    }
    assert!(rt; told.get(b"a")? == Some(Text::from_slice(alloc, b"8")?));
    assert!(rt; told.get(b"fixed")? == Some(Text::from_slice(alloc, b"7")?));
    assert!(rt; told.get(b"none")? == None);
    assert!(rt; told.set(b"fixed", 1) == Ok(Assigned::ReadOnly));
    assert!(rt; told.set(b"b", 2) == Ok(Assigned::Yes));
    assert!(rt; evaluate(alloc, b"b", &mut told) == Ok(2));
    Ok(())
}
