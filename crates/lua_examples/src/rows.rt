//! The rows: a chunk, in which `@` stands for the end of a line, what its `f` gives, and the units of the call, or the fault with its line.

/// Values, names, tables and calls.
pub fn nodes() -> &'static str {
    "\
function f() return nil end|nil|3
function f() return true end|true|3
function f() return false end|false|3
function f() return 12 end|12|3
function f() return \"a\\n\" end|\"a\\n\"|3
x = 5 function f() return x end|5|5
function f() return y end|nil|3
function f() return STREAM_IMAGE end|2|3
function f() end|nil|1
function f() return end|nil|2
function f() local a return a end|nil|4
function f() local a = 2 local a = 3 return a end|3|7
function f() local t = { 4, 5 } return t[2] end|5|9
function f() local t = { x = 4 } return t.x end|4|7
function f() local t = {} return t[1] end|nil|7
function f() local t = { [\"a\"] = 1, [true] = 2 } return t[true] end|2|11
function f() local t = { 1, nil, 3 } return t[3] end|3|10
function f() local t = { 1, [1] = 2 } return t[1] end|2|10
function g(a, b) return a - b end function f() return g(5, 3) end|2|9
function g(a, b) return b end function f() return g(5) end|nil|6
function g() return 1 end function f() return g(2, 3) end|1|7
function g(a, a) return a end function f() return g(1, 2) end|2|7
function g() return 1 end function g() return 2 end function f() return g() end|2|5
x = g() function g() return 4 end function f() return x end|4|7
function g() x = 3 end function f() g() return x end|3|7
function g() return a end function f() local a = 1 return g() end|nil|7
function g() a = 2 end function f() local a = 1 g() return a end|1|9
function g() local a = 2 return a end function f() local a = 1 return g() + a end|3|11
function g(n) local m = n if n > 0 then g(n - 1) end return m end function f() return g(1) end|1|25
g = 1 function g() return g end function f() return g() end|1|7
"
}

/// Operators with one operand.
pub fn unary() -> &'static str {
    "\
function f() return not nil end|true|4
function f() return not 0 end|false|4
function f() return #\"abc\" end|3|4
function f() local t = { 1, nil, 3 } return #t end|1|9
function f() return -5 end|-5|4
function f() return -7 % 3 end|2|6
"
}

/// Operators with two.
pub fn binary() -> &'static str {
    "\
function f() return 7 + 2 end|9|5
function f() return 2 - 7 end|-5|5
function f() return 7 * 2 end|14|5
function f() return 6 / 3 end|2|5
function f() return 7 % -3 end|-2|6
function f() return -7 % -3 end|-1|7
function f() return \"a\" .. 1 end|\"a1\"|5
function f() return 1 .. 2 end|\"12\"|5
function f() return -1 .. \"\" end|\"-1\"|6
function f() return 2 < 1 end|false|5
function f() return \"B\" < \"a\" end|true|5
function f() return \"a\" < \"ab\" end|true|5
function f() return 1 > 1 end|false|5
function f() return 1 <= 1 end|true|5
function f() return 0 >= 1 end|false|5
function f() return 1 == \"1\" end|false|5
function f() return nil == false end|false|5
function f() return {} == {} end|false|5
function f() local t = {} return t == t end|true|7
function f() return 1 ~= \"1\" end|true|5
function f() return nil and x() end|nil|4
function f() return 1 and 2 end|2|5
function f() return 0 and \"\" end|\"\"|5
function f() return 1 or x() end|1|4
function f() return false or nil end|nil|5
"
}

/// The libraries.
pub fn libraries() -> &'static str {
    "\
function f() return math.floor(7 / 2) end|3|6
function f() return math.floor((-7 / 2)) end|-4|7
function f() return math.floor(7) end|7|4
function f() return math.abs(-4) end|4|5
function f() return math.min(2, 1) end|1|5
function f() return math.max(2, 1) end|2|5
function f() return math.random(5, 5) end|5|5
function f() return math.random(1) end|1|4
function f() local t = {} table.insert(t, 4) return t[1] end|4|11
function f() return table.insert({}, 1) end|nil|5
function f() local t = {} table.insert(t, nil) return #t end|0|10
function f() local t = { 1, 2 } return table.remove(t) + #t end|3|11
function f() return table.remove({}) end|nil|4
"
}

/// Statements.
pub fn statements() -> &'static str {
    "\
function f() local t = {} t[1] = 5 return t[1] end|5|11
function f() local t = {} t.x = 5 return t.x end|5|9
function f() local t = { 1 } t[1] = nil return #t end|0|11
function f() if 1 then return 2 end end|2|5
function f() if nil then return 1 end end|nil|3
function f() if nil then return 1 elseif false then return 2 else return 3 end end|3|6
function f() local i = 0 while i < 2 do i = i + 1 end return i end|2|25
function f() repeat local a = 1 until a == 1 end|nil|8
function f() local s = 0 for i = 1, 3 do s = s + i end return s end|6|23
function f() local s = 0 for i = 3, 1, -1 do s = s + i end return s end|6|25
function f() for i = 2, 1 do return i end end|nil|4
function f() local n = 0 for i = 1, 2 do n = n + 1 i = 5 end return n end|2|22
function f() local n = 0 for i = 9007199254740992, 9007199254740992 do n = n + 1 end return n end|1|13
function f() local a = 1 do local a = 2 end return a end|1|8
function f() local a = 1 for a = 2, 3 do local a = 4 end return a end|1|14
function f() local a = 1 do local a = 2 a = 3 end a = a + 4 return a end|5|14
function f() local a = 1 local a = 2 do local a = 3 a = 4 end a = 5 return a end|5|14
function f() while true do break end return 1 end|1|7
function f() repeat break until nil end|nil|4
function f() for i = 1, 5 do return i end end|1|7
function f() for i = 1, 2 do local b = i end return b end|nil|12
"
}

/// Draws with the seed 1: the generator's words are those of PCG XSH RR 64/32 on its stream 1.
pub fn draws() -> &'static str {
    "\
function f() return math.random(1000000) end|787149|4
function f() return math.random(-9007199254740992, 9007199254740992) end|5172806606127104|6
function f() return math.random(0, 9) .. math.random(0, 9) .. math.random(0, 9) end|\"707\"|13
"
}

/// What is made plain.
pub fn plain_values() -> &'static str {
    "\
function f() return { 1, { 2 }, \"x\" } end|{1 {2} \"x\"}|11
function f() return { 1, nil, 3 } end|{1}|7
function f() return {{{{{}}}}} end|{{{{deep}}}}|11
"
}

/// The most calls that may be open, and the most units that may be paid.
pub fn limits() -> &'static str {
    "\
function g(n) if n == 1 then return 1 end return g(n - 1) end function f() return g(99) end|1|892
function f() for i = 1, 499994 do end return 1 end|1|500000
"
}

/// Faults, with their lines.
pub fn faults() -> &'static str {
    "\
function f() return 1 + nil end|TypeFault 1
function f() return nil .. \"a\" end|TypeFault 1
function f() return 1 < \"a\" end|TypeFault 1
function f() return -\"a\" end|TypeFault 1
function f() return #1 end|TypeFault 1
function f() local t return t[1] end|TypeFault 1
function f() local t return t.x end|TypeFault 1
function f() local t = {} return t[t] end|TypeFault 1
function f() local t = {} t[nil] = 1 end|TypeFault 1
function f() return { [nil] = 1 } end|TypeFault 1
function f() return math.abs(\"a\") end|TypeFault 1
function f() return math.abs() end|TypeFault 1
function f() return math.min(1) end|TypeFault 1
function f() return table.insert({}) end|TypeFault 1
function f() return table.remove(1) end|TypeFault 1
function f() for i = \"a\", 2 do end end|TypeFault 1
function f() for i = 1, nil, 0 do end end|TypeFault 1
function f() return \"a\" / 0 end|TypeFault 1
function f() return g(1 + nil) end|UnknownName 1
x = 1 function f() return x() end|UnknownName 1
function f() return math.pow(1 + nil) end|UnknownName 1
function f() return table.sort({}) end|UnknownName 1
function f() return 7 / 2 end|Inexact 1
function f() return math.abs(7 / 2) end|Inexact 1
function f() return math.floor(7 / 2 + 1) end|Inexact 1
function f() return math.floor(5 / 0) end|Inexact 1
function f() return 5 % 0 end|Inexact 1
function f() return 9007199254740992 + 1 end|OutOfRange 1
function f() return -9007199254740992 - 1 end|OutOfRange 1
function f() return 3037000500 * 3037000500 end|OutOfRange 1
function f() return math.random(2, 1) end|OutOfRange 1
function f() return math.random(0) end|OutOfRange 1
function f() for i = 1, 2, 0 do end end|OutOfRange 1
function f() return nil + (9007199254740992 + 1) end|OutOfRange 1
function f() local s = \"x\" for i = 1, 11 do s = s .. s end return s end|LongString 1
function f() return f() end|TooDeepCalls 1
function g(n) if n == 1 then return 1 end return g(n - 1) end function f() return g(100) end|TooDeepCalls 1
x = 1 + nil function f() return 1 end|TypeFault 1
function f() return 5 / 0 end|Inexact 1
function f() return g() end|UnknownName 1
function f()@local t@= 1@+@nil@end|TypeFault 4
function f()@return@g@(@)@end|UnknownName 3
function f()@return math@.@floor@(@1 ..@nil)@end|TypeFault 6
function f()@local t@return t@[@1@]@end|TypeFault 4
function f()@local t@t@.@x@=@1@end|TypeFault 4
function f()@for@i@=@1, 2, 0@do end@end|OutOfRange 2
function f()@return@7@/@2@end|Inexact 4
@x@=@-@nil@function f() return 1 end|TypeFault 4
function g()@return@{}@<@{}@end@function f()@return g()@end|TypeFault 4
"
}

/// Calls that would pay one unit more than may be paid.
pub fn budgets() -> &'static str {
    "\
function f() while true do end end|Budget
function f() for i = 1, 499995 do end return 1 end|Budget
"
}
