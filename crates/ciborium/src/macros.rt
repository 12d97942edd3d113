//! `cbor!`.

/// A value in place: `cbor!(alloc, {"a" => [1, true, null]})` is a `Result` of a `Value` or a
/// `value::Error`. Arrays are in brackets, maps in braces, and any other part is an expression of
/// a type that can be written.
#[macro_export]
macro_rules! cbor {
    (@value $a:ident, null) => { $crate::build::null() };
    (@value $a:ident, [ $($inner:tt)* ]) => {
        $crate::build::array($crate::cbor!(@items $a, ($crate::build::no_items($a)) $($inner)*))
    };
    (@value $a:ident, { $($inner:tt)* }) => {
        $crate::build::map($crate::cbor!(@entries $a, ($crate::build::no_entries($a)) $($inner)*))
    };
    (@value $a:ident, $value:expr) => { $crate::build::leaf($a, &$value) };

    (@items $a:ident, ($($done:tt)*)) => { $($done)* };
    (@items $a:ident, ($($done:tt)*) null $(, $($rest:tt)*)?) => {
        $crate::cbor!(@items $a,
            ($crate::build::with_item($($done)*, $crate::build::null())) $($($rest)*)?)
    };
    (@items $a:ident, ($($done:tt)*) [ $($inner:tt)* ] $(, $($rest:tt)*)?) => {
        $crate::cbor!(@items $a,
            ($crate::build::with_item($($done)*, $crate::cbor!(@value $a, [ $($inner)* ])))
            $($($rest)*)?)
    };
    (@items $a:ident, ($($done:tt)*) { $($inner:tt)* } $(, $($rest:tt)*)?) => {
        $crate::cbor!(@items $a,
            ($crate::build::with_item($($done)*, $crate::cbor!(@value $a, { $($inner)* })))
            $($($rest)*)?)
    };
    (@items $a:ident, ($($done:tt)*) $value:expr $(, $($rest:tt)*)?) => {
        $crate::cbor!(@items $a,
            ($crate::build::with_item($($done)*, $crate::build::leaf($a, &$value))) $($($rest)*)?)
    };

    (@entries $a:ident, ($($done:tt)*)) => { $($done)* };
    (@entries $a:ident, ($($done:tt)*) null => $($rest:tt)*) => {
        $crate::cbor!(@entry $a, ($($done)*) ($crate::build::null()) $($rest)*)
    };
    (@entries $a:ident, ($($done:tt)*) [ $($inner:tt)* ] => $($rest:tt)*) => {
        $crate::cbor!(@entry $a, ($($done)*) ($crate::cbor!(@value $a, [ $($inner)* ])) $($rest)*)
    };
    (@entries $a:ident, ($($done:tt)*) { $($inner:tt)* } => $($rest:tt)*) => {
        $crate::cbor!(@entry $a, ($($done)*) ($crate::cbor!(@value $a, { $($inner)* })) $($rest)*)
    };
    (@entries $a:ident, ($($done:tt)*) $key:expr => $($rest:tt)*) => {
        $crate::cbor!(@entry $a, ($($done)*) ($crate::build::leaf($a, &$key)) $($rest)*)
    };

    (@entry $a:ident, ($($done:tt)*) ($($key:tt)*) null $(, $($rest:tt)*)?) => {
        $crate::cbor!(@entries $a,
            ($crate::build::with_entry($($done)*, $($key)*, $crate::build::null())) $($($rest)*)?)
    };
    (@entry $a:ident, ($($done:tt)*) ($($key:tt)*) [ $($inner:tt)* ] $(, $($rest:tt)*)?) => {
        $crate::cbor!(@entries $a,
            ($crate::build::with_entry(
                $($done)*, $($key)*, $crate::cbor!(@value $a, [ $($inner)* ])
            ))
            $($($rest)*)?)
    };
    (@entry $a:ident, ($($done:tt)*) ($($key:tt)*) { $($inner:tt)* } $(, $($rest:tt)*)?) => {
        $crate::cbor!(@entries $a,
            ($crate::build::with_entry(
                $($done)*, $($key)*, $crate::cbor!(@value $a, { $($inner)* })
            ))
            $($($rest)*)?)
    };
    (@entry $a:ident, ($($done:tt)*) ($($key:tt)*) $value:expr $(, $($rest:tt)*)?) => {
        $crate::cbor!(@entries $a,
            ($crate::build::with_entry($($done)*, $($key)*, $crate::build::leaf($a, &$value)))
            $($($rest)*)?)
    };

    ($alloc:expr, $($inner:tt)*) => {{
        let alloc = $alloc;
        $crate::cbor!(@value alloc, $($inner)*)
    }};
}
