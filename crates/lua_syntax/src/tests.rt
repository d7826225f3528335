use crate::{Item, LuaSyntax, parse};
use std::alloc::Global;
use std::process::Abort;
use std::test::Fail;

/// What `parse` answers: 0 for a tree, a line for `Syntax`, a line and 1000 for `TooDeep`.
fn answer(alloc: Global, text: &[u8]) -> usize {
    match parse(alloc, text) {
        Ok(_) => 0,
        Err(LuaSyntax::Syntax { line }) => line,
        Err(LuaSyntax::TooDeep { line }) => line.saturating_add(1000),
        Err(LuaSyntax::NoMemory) => 9999,
    }
}

fn all_answer(rt: &impl Abort, alloc: Global, texts: &[&[u8]], wanted: usize) {
    for text in texts {
        let text = *text;
        let found = answer(alloc, text);
        assert_eq!(rt; found, wanted);
    }
}

#[test]
fn each_form_is_read(rt: HostRuntime) {
    let texts: [&[u8]; 31] = [
        b"",
        b"\n-- nothing\r\n",
        b"--[[ two\nlines ]] x = 1",
        b"--[==[ a line\nx = 1",
        b"x = nil; y = true; z = false",
        b"x = 9007199254740992",
        b"x = 'a\\n\\t\\\\\\'\\\"'",
        b"x = \"it's\"",
        b"x = (a.b[1]).. 'c'",
        b"function f() end function g(a) end function h(a, b) end;",
        b"function f() local a local b = 1; end",
        b"function f() a = 1 a[1] = 2 a.b = 3 a[1].b[2] = 4 end",
        b"function f() g() g(1) g(1, 2) math.floor(1) table.insert(t, 1) end",
        b"function f() g().a = 1 g(1)[2] = 3 math.max(1, 2).x = 4 end",
        b"function f() math.pi = 1 table = 2 math[1] = 3 end",
        b"function f() if a then end if a then elseif b then else end end",
        b"function f() while a do break end repeat break until b end",
        b"function f() for i = 1, 2 do end for i = 1, 2, 3 do if i then break; end end end",
        b"function f() do return end end",
        b"function f() return 1; end",
        b"x = {}",
        b"x = {1, 2; 3,}",
        b"x = {a = 1, [b] = 2, c, c.d, c[1], c(1), c + 1, math.pi, math.max(1), (d)}",
        b"x = a or b and c < d .. e + f * - g",
        b"x = not a == b",
        b"x = math.pi x = math.floor(1).y x = math x = math(1)",
        b"x = # a - - 1",
        b"x = f()[1].y",
        b"x = 1 x = 2",
        b"x=1--\n",
        b"x = a ~= b x = a >= b x = a <= b x = a > b x = a % b x = a / b",
    ];
    all_answer(&rt, rt.alloc(), &texts, 0);
}

#[test]
fn the_first_wrong_token_is_named(rt: HostRuntime) {
    let first: [&[u8]; 40] = [
        b"function f(",
        b"x = 1 +",
        b"function f() goto a end",
        b"local x = 1",
        b"x",
        b"x + 1",
        b"x = ",
        b"x = 1;;",
        b"x.y = 1",
        b"f()",
        b"function f(a,) end",
        b"function f(1) end",
        b"function f.g() end",
        b"function f() break end",
        b"function f() if a then break end end",
        b"function f() return 1 x = 2 end",
        b"function f() return 1;; end",
        b"function f() a end",
        b"function f() a.b end",
        b"function f() a[1] end",
        b"function f() (a).b = 1 end",
        b"function f() a.b(1) end",
        b"function f() f() = 1 end",
        b"function f() if a end",
        b"function f() if a then else elseif b then end end",
        b"function f() for i = 1 do end end",
        b"function f() for i = 1, 2, 3, 4 do end end",
        b"function f() repeat end",
        b"function f() local a, b = 1 end",
        b"x = (a).b",
        b"x = f(1,)",
        b"x = f(,1)",
        b"x = f(1)(2)",
        b"x = {,}",
        b"x = {1,,2}",
        b"x = {a.b = 1}",
        b"x = 'a",
        b"x = 'a\\q'",
        b"x = 9007199254740993",
        b"x = 1 --[[ ]",
    ];
    all_answer(&rt, rt.alloc(), &first, 1);
    let second: [&[u8]; 9] = [
        b"x = 1\nlocal y = 2",
        b"x = (1\n",
        b"x = (1\n\n",
        b"x =\n1 2",
        b"x = 'a\n'\n",
        b"--[[\n]] y",
        b"x = 1\r\n\r",
        b"x = 1e5\n",
        b"x = 1..2\n~",
    ];
    let wanted: [usize; 9] = [2, 1, 2, 2, 1, 2, 0, 1, 2];
    for i in 0..9usize {
        assert_eq!(rt; answer(rt.alloc(), second[i]), wanted[i]);
    }
}

/// So many times one text between two others.
fn repeated(
    alloc: Global,
    before: &[u8],
    text: &[u8],
    times: usize,
    after: &[u8],
) -> Result<Vec<u8>, Fail> {
    let mut whole = Vec::from_slice(alloc, before)?;
    for _ in 0..times {
        whole.extend_from_slice(text)?;
    }
    whole.extend_from_slice(after)?;
    Ok(whole)
}

#[test]
fn sixty_four_may_be_open(rt: HostRuntime) -> Result<(), Fail> {
    let alloc = rt.alloc();
    let not = repeated(alloc, b"function f() return ", b"not ", 63, b"1 end")?;
    assert_eq!(rt; answer(alloc, not.as_slice()), 0);
    let not = repeated(alloc, b"function f() return\n", b"not ", 64, b"1 end")?;
    assert_eq!(rt; answer(alloc, not.as_slice()), 1002);
    let sums = repeated(alloc, b"x = 1", b" + 1", 64, b"")?;
    assert_eq!(rt; answer(alloc, sums.as_slice()), 0);
    let sums = repeated(alloc, b"x = 1", b" + 1", 65, b"")?;
    assert_eq!(rt; answer(alloc, sums.as_slice()), 1001);
    let dos = repeated(alloc, b"function f() ", b"do ", 100_000, b"")?;
    assert_eq!(rt; answer(alloc, dos.as_slice()), 1001);
    Ok(())
}

#[test]
fn what_is_not_nested_may_be_long(rt: HostRuntime) -> Result<(), Fail> {
    let alloc = rt.alloc();
    let list = repeated(alloc, b"x = {", b"1 + 2, ", 20_000, b"}")?;
    assert_eq!(rt; answer(alloc, list.as_slice()), 0);
    let block = repeated(alloc, b"function f() ", b"a.b[1] = f(1)\n", 20_000, b"end")?;
    assert_eq!(rt; answer(alloc, block.as_slice()), 0);
    Ok(())
}

#[test]
fn a_chunk_knows_its_functions(rt: HostRuntime) -> Result<(), Fail> {
    let chunk = parse(rt.alloc(), b"x = 'it\\'s' function f(a) end")?;
    assert!(rt; chunk.defines(b"f"));
    assert!(rt; !chunk.defines(b"x"));
    match chunk.items() {
        [Item::Assign { name, .. }, Item::Function { .. }] => {
            assert_eq!(rt; name.bytes(), b"x".as_slice());
        }
        _ => assert!(rt; false),
    }
    Ok(())
}
