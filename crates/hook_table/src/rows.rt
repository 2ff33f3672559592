// The rows of the table. Each row is written only here.

// Passes the rows to a macro: the number of each, its name, the kinds of its arguments and of its
// value, and the function that computes the value.
macro_rules! table_rows {
    ($with:ident!($($given:tt)*)) => {
        $with! {
            ($($given)*)
            0 => "INT.add" [Int, Int] -> Int = integers::add;
            1 => "INT.sub" [Int, Int] -> Int = integers::sub;
            2 => "INT.mul" [Int, Int] -> Int = integers::mul;
            3 => "INT.tdiv" [Int, Int] -> Int = integers::tdiv;
            4 => "INT.tmod" [Int, Int] -> Int = integers::tmod;
            5 => "INT.ediv" [Int, Int] -> Int = integers::ediv;
            6 => "INT.emod" [Int, Int] -> Int = integers::emod;
            7 => "INT.eq" [Int, Int] -> Bool = integers::eq;
            8 => "INT.ne" [Int, Int] -> Bool = integers::ne;
            9 => "INT.lt" [Int, Int] -> Bool = integers::lt;
            10 => "INT.le" [Int, Int] -> Bool = integers::le;
            11 => "INT.gt" [Int, Int] -> Bool = integers::gt;
            12 => "INT.ge" [Int, Int] -> Bool = integers::ge;
            13 => "INT.min" [Int, Int] -> Int = integers::min;
            14 => "INT.max" [Int, Int] -> Int = integers::max;
            15 => "INT.abs" [Int] -> Int = integers::abs;
            16 => "INT.and" [Int, Int] -> Int = integers::and;
            17 => "INT.or" [Int, Int] -> Int = integers::or;
            18 => "INT.xor" [Int, Int] -> Int = integers::xor;
            19 => "INT.not" [Int] -> Int = integers::not;
            20 => "INT.shl" [Int, Int] -> Int = integers::shl;
            21 => "INT.shr" [Int, Int] -> Int = integers::shr;
            22 => "BOOL.and" [Bool, Bool] -> Bool = truths::and;
            23 => "BOOL.or" [Bool, Bool] -> Bool = truths::or;
            24 => "BOOL.xor" [Bool, Bool] -> Bool = truths::ne;
            25 => "BOOL.implies" [Bool, Bool] -> Bool = truths::implies;
            26 => "BOOL.not" [Bool] -> Bool = truths::not;
            27 => "BOOL.eq" [Bool, Bool] -> Bool = truths::eq;
            28 => "BOOL.ne" [Bool, Bool] -> Bool = truths::ne;
            29 => "BOOL.andThen" [Bool, Bool] -> Bool = truths::and;
            30 => "BOOL.orElse" [Bool, Bool] -> Bool = truths::or;
        }
    };
}

pub(crate) use table_rows;
