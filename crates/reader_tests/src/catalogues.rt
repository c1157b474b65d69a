//! Which catalogue a text describes, or at which of its keys it is refused: cases as lines.
//!
//! `~` stands for a line feed in texts and answers, and `^` for the byte 255, which no UTF-8 has. A path is the table's
//! number, the part, the number of the column or index, the key, and the number of the element, 0 for none.
mod shown;

use crate::catalogues::shown::{fault_shown, shown};
use crate::written::{parts, written};
use catalogue::read_catalogue;
use std::alloc::{AllocError, Global};
use std::process::Abort;

/// Keys: the path, the kind of value that it wants, what comes where it is left out (nothing where that can't be), the
/// text before it, and the key, with `@` in place of its value.
const KEYS: &str = r#"0 Whole 0 Version 0|integer|missing||version = @
1 Table 0 Name 0|text|missing|version = 1~[[table]]~rows = 1~pages = 1~column = [{ name = "c", kind = "int", width = 4 }]~|name = @
1 Table 0 Rows 0|integer|missing|version = 1~[[table]]~name = "t"~pages = 1~column = [{ name = "c", kind = "int", width = 4 }]~|rows = @
1 Table 0 Pages 0|integer|missing|version = 1~[[table]]~name = "t"~rows = 1~column = [{ name = "c", kind = "int", width = 4 }]~|pages = @
1 Table 0 Columns 0|array|missing|version = 1~[[table]]~name = "t"~rows = 1~pages = 1~|column = @
1 Column 1 Name 0|text|missing|version = 1~[[table]]~name = "t"~rows = 1~pages = 1~[[table.column]]~kind = "int"~width = 4~|name = @
1 Column 1 Kind 0|text|missing|version = 1~[[table]]~name = "t"~rows = 1~pages = 1~[[table.column]]~name = "c"~width = 4~|kind = @
1 Column 1 Width 0|integer|missing|version = 1~[[table]]~name = "t"~rows = 1~pages = 1~[[table.column]]~name = "c"~kind = "int"~|width = @
1 Index 1 Name 0|text|missing|version = 1~[[table]]~name = "t"~rows = 1~pages = 1~column = [{ name = "c", kind = "int", width = 4 }]~[[table.index]]~keys = ["c"]~|name = @
1 Index 1 Keys 0|array|missing|version = 1~[[table]]~name = "t"~rows = 1~pages = 1~column = [{ name = "c", kind = "int", width = 4 }]~[[table.index]]~name = "i"~|keys = @
0 Rates 0 Itself 0|table|accepted|version = 1~|rates = @
0 Rates 0 SeqPage 0|integer|accepted|version = 1~[rates]~|seq_page = @
0 Rates 0 RandPage 0|integer|accepted|version = 1~[rates]~|rand_page = @
0 Rates 0 RowCpu 0|integer|accepted|version = 1~[rates]~|row_cpu = @
0 Rates 0 SortCpu 0|integer|accepted|version = 1~[rates]~|sort_cpu = @
0 Rates 0 MergeCpu 0|integer|accepted|version = 1~[rates]~|merge_cpu = @
0 Rates 0 HashCpu 0|integer|accepted|version = 1~[rates]~|hash_cpu = @
0 Rates 0 GroupCpu 0|integer|accepted|version = 1~[rates]~|group_cpu = @
0 Table 0 Itself 0|array|accepted|version = 1~|table = @
1 Column 1 Distinct 0|integer|accepted|version = 1~[[table]]~name = "t"~rows = 1~pages = 1~[[table.column]]~name = "c"~kind = "int"~width = 4~|distinct = @
1 Column 1 Low 0|integer|accepted|version = 1~[[table]]~name = "t"~rows = 1~pages = 1~[[table.column]]~name = "c"~kind = "int"~width = 4~|low = @
1 Column 1 High 0|integer|accepted|version = 1~[[table]]~name = "t"~rows = 1~pages = 1~[[table.column]]~name = "c"~kind = "int"~width = 4~|high = @
1 Column 1 Low 0|text|accepted|version = 1~[[table]]~name = "t"~rows = 1~pages = 1~[[table.column]]~name = "c"~kind = "date"~width = 4~|low = @
1 Column 1 High 0|text|accepted|version = 1~[[table]]~name = "t"~rows = 1~pages = 1~[[table.column]]~name = "c"~kind = "date"~width = 4~|high = @
1 Table 0 Indexes 0|array|accepted|version = 1~[[table]]~name = "t"~rows = 1~pages = 1~column = [{ name = "c", kind = "int", width = 4 }]~|index = @
1 Index 1 Unique 0|boolean|accepted|version = 1~[[table]]~name = "t"~rows = 1~pages = 1~column = [{ name = "c", kind = "int", width = 4 }]~[[table.index]]~name = "i"~keys = ["c"]~|unique = @
1 Index 1 Clustered 0|boolean|accepted|version = 1~[[table]]~name = "t"~rows = 1~pages = 1~column = [{ name = "c", kind = "int", width = 4 }]~[[table.index]]~name = "i"~keys = ["c"]~|clustered = @
1 Table 0 MayCluster 0|boolean|accepted|version = 2~[[table]]~name = "t"~rows = 1~pages = 1~column = [{ name = "c", kind = "int", width = 4 }]~|may_cluster = @
1 Column 1 Bounds 0|array|accepted|version = 2~[[table]]~name = "t"~rows = 1~pages = 1~[[table.column]]~name = "c"~kind = "int"~width = 4~|bounds = @
1 Column 1 Bounds 0|array|accepted|version = 2~[[table]]~name = "t"~rows = 1~pages = 1~[[table.column]]~name = "c"~kind = "date"~width = 4~|bounds = @
1 Column 1 Bounds 2|integer||version = 2~[[table]]~name = "t"~rows = 1~pages = 1~[[table.column]]~name = "c"~kind = "int"~width = 4~|bounds = [1, @]
1 Column 1 Bounds 1|text||version = 2~[[table]]~name = "t"~rows = 1~pages = 1~[[table.column]]~name = "c"~kind = "date"~width = 4~|bounds = [@, "2000-01-01"]
1 Table 0 Itself 0|table||version = 1~|table = [@]
1 Column 2 Itself 0|table||version = 1~[[table]]~name = "t"~rows = 1~pages = 1~|column = [{ name = "c", kind = "int", width = 4 }, @]
1 Index 1 Itself 0|table||version = 1~[[table]]~name = "t"~rows = 1~pages = 1~column = [{ name = "c", kind = "int", width = 4 }]~|index = [@]
1 Index 1 Keys 2|text||version = 1~[[table]]~name = "t"~rows = 1~pages = 1~column = [{ name = "c", kind = "int", width = 4 }]~[[table.index]]~name = "i"~|keys = ["c", @]"#;

/// A value of each kind.
const VALUES: &str = r#"integer|7
float|1.0
text|"x"
boolean|true
date|2000-01-01
array|[7]
table|{ x = 7 }"#;

/// Ranges: the path, the text before the key, the key, values in its range, and values outside of it.
const RANGES: &str = r#"0 Whole 0 Version 0||version|1;2|0;3
0 Rates 0 SeqPage 0|version = 1~[rates]~|seq_page|0;1000000|-1;1000001
0 Rates 0 RandPage 0|version = 1~[rates]~|rand_page|0;1000000|-1;1000001
0 Rates 0 RowCpu 0|version = 1~[rates]~|row_cpu|0;1000000|-1;1000001
0 Rates 0 SortCpu 0|version = 1~[rates]~|sort_cpu|0;1000000|-1;1000001
0 Rates 0 MergeCpu 0|version = 1~[rates]~|merge_cpu|0;1000000|-1;1000001
0 Rates 0 HashCpu 0|version = 1~[rates]~|hash_cpu|0;1000000|-1;1000001
0 Rates 0 GroupCpu 0|version = 1~[rates]~|group_cpu|0;1000000|-1;1000001
1 Table 0 Name 0|version = 1~[[table]]~rows = 1~pages = 1~column = [{ name = "c", kind = "int", width = 4 }]~|name|"_";"aZ_9"|"";"9a"
1 Table 0 Rows 0|version = 1~[[table]]~name = "t"~pages = 1~column = [{ name = "c", kind = "int", width = 4 }]~|rows|0;1000000000000|-1;1000000000001
1 Table 0 Pages 0|version = 1~[[table]]~name = "t"~rows = 1~column = [{ name = "c", kind = "int", width = 4 }]~|pages|0;1000000000000|-1;1000000000001
1 Column 1 Name 0|version = 1~[[table]]~name = "t"~rows = 1~pages = 1~[[table.column]]~kind = "int"~width = 4~|name|"a";"A234567890123456789012345678901234567890123456789012345678901234"|"a b";"A2345678901234567890123456789012345678901234567890123456789012345"
1 Column 1 Kind 0|version = 1~[[table]]~name = "t"~rows = 1~pages = 1~[[table.column]]~name = "c"~width = 4~|kind|"int";"text"|"Int";""
1 Column 1 Width 0|version = 1~[[table]]~name = "t"~rows = 1~pages = 1~[[table.column]]~name = "c"~kind = "int"~|width|1;1000|0;1001
1 Column 1 Distinct 0|version = 1~[[table]]~name = "t"~rows = 1~pages = 1~[[table.column]]~name = "c"~kind = "int"~width = 4~|distinct|1;1000000000000|0;1000000000001
1 Column 1 Low 0|version = 1~[[table]]~name = "t"~rows = 1~pages = 1~[[table.column]]~name = "c"~kind = "int"~width = 4~|low|-1000000000000000000;1000000000000000000|-1000000000000000001;1000000000000000001
1 Column 1 High 0|version = 1~[[table]]~name = "t"~rows = 1~pages = 1~[[table.column]]~name = "c"~kind = "int"~width = 4~low = 5~|high|5;1000000000000000000|4;1000000000000000001
1 Column 1 Low 0|version = 1~[[table]]~name = "t"~rows = 1~pages = 1~[[table.column]]~name = "c"~kind = "date"~width = 4~|low|"0000-01-01";"9999-12-31"|"2001-02-29";"2000-1-01"
1 Column 1 High 0|version = 1~[[table]]~name = "t"~rows = 1~pages = 1~[[table.column]]~name = "c"~kind = "date"~width = 4~low = "2000-02-29"~|high|"2000-02-29";"9999-12-31"|"2000-02-28";"2000-13-01"
1 Column 1 Bounds 0|version = 2~[[table]]~name = "t"~rows = 1~pages = 1~[[table.column]]~name = "c"~kind = "int"~width = 4~|bounds|[0, 0];[-5, 0, 0, 9]|[];[0]
1 Column 1 Bounds 2|version = 2~[[table]]~name = "t"~rows = 1~pages = 1~[[table.column]]~name = "c"~kind = "int"~width = 4~|bounds|[5, 5];[-1000000000000000000, 1000000000000000000]|[5, 4];[5, 1000000000000000001]
1 Column 1 Bounds 1|version = 2~[[table]]~name = "t"~rows = 1~pages = 1~[[table.column]]~name = "c"~kind = "date"~width = 4~|bounds|["0000-01-01", "9999-12-31"];["2000-02-29", "2000-02-29"]|["2001-02-29", "2002-01-01"];["2000-1-01", "2002-01-01"]
1 Column 1 Bounds 3|version = 2~[[table]]~name = "t"~rows = 1~pages = 1~[[table.column]]~name = "c"~kind = "date"~width = 4~|bounds|["2000-02-29", "2000-03-01", "2000-03-01"];["0000-01-01", "1969-12-31", "1970-01-01"]|["2000-02-29", "2000-03-01", "2000-02-29"];["2000-02-29", "2000-03-01", "2000-02-30"]
1 Index 1 Name 0|version = 1~[[table]]~name = "t"~rows = 1~pages = 1~column = [{ name = "c", kind = "int", width = 4 }]~[[table.index]]~keys = ["c"]~|name|"i";"i_1"|"i-1";"é""#;

/// Whole texts behind what is answered: the catalogue, or the first fault.
const TEXTS: &str = r#"1000 4000 10 5 5 8 5~|version = 1~
1000 4000 10 5 5 8 5~t 1000 20~c Int 4 Some(1000) None None~|version = 1~[[table]]~name = "t"~rows = 1000~pages = 20~[[table.column]]~name = "c"~kind = "int"~width = 4~distinct = 1000~
1000 4000 10 5 5 8 5~t 1000 20~c Int 4 Some(1000) None None~n Int 4 Some(1000) None None~t_c of 0: 0~|version = 1~[[table]]~name = "t"~rows = 1000~pages = 20~column = [{ name = "c", kind = "int", width = 4, distinct = 1000 }, { name = "n", kind = "int", width = 4, distinct = 1000 }]~index = [{ name = "t_c", keys = ["c"] }]~
1000 4000 10 5 5 8 5~t 1000 20~c Int 4 Some(1000) None None~n Int 4 Some(1000) None None~t_c of 0: 0 clustered~|version = 1~[[table]]~name = "t"~rows = 1000~pages = 20~column = [{ name = "c", kind = "int", width = 4, distinct = 1000 }, { name = "n", kind = "int", width = 4, distinct = 1000 }]~index = [{ name = "t_c", keys = ["c"], clustered = true }]~
1000 4000 10 5 5 8 5~t 1000 20~a Int 4 Some(1000) None None~b Int 4 Some(1000) None None~n Int 4 Some(1000) None None~t_ab of 0: 0 1~|version = 1~[[table]]~name = "t"~rows = 1000~pages = 20~column = [{ name = "a", kind = "int", width = 4, distinct = 1000 }, { name = "b", kind = "int", width = 4, distinct = 1000 }, { name = "n", kind = "int", width = 4, distinct = 1000 }]~index = [{ name = "t_ab", keys = ["a", "b"] }]~
1000 4000 10 5 5 8 5~t 1000 20~a Int 4 Some(100) None None~b Int 4 Some(1000) None None~|version = 1~[[table]]~name = "t"~rows = 1000~pages = 20~column = [{ name = "a", kind = "int", width = 4, distinct = 100 }, { name = "b", kind = "int", width = 4, distinct = 1000 }]~
1000 4000 10 5 5 8 5~t 1000 20~x Int 4 Some(1000) None None~z Int 4 Some(1000) None None~t_xz of 0: 0 1~u 1000 20~y Int 4 Some(1000) None None~|version = 1~[[table]]~name = "t"~rows = 1000~pages = 20~column = [{ name = "x", kind = "int", width = 4, distinct = 1000 }, { name = "z", kind = "int", width = 4, distinct = 1000 }]~index = [{ name = "t_xz", keys = ["x", "z"] }]~[[table]]~name = "u"~rows = 1000~pages = 20~column = [{ name = "y", kind = "int", width = 4, distinct = 1000 }]~
1000 4000 10 5 5 8 5~a 1000 20~k Int 4 Some(1000) None None~x Int 4 Some(1000) None None~b 1000 20~x Int 4 Some(1000) None None~y Int 4 Some(10) None None~c 1000 20~y Int 4 Some(10) None None~x Int 4 Some(1000) None None~d 1000 20~x Int 4 Some(1000) None None~k Int 4 Some(1000) None None~|version = 1~[[table]]~name = "a"~rows = 1000~pages = 20~column = [{ name = "k", kind = "int", width = 4, distinct = 1000 }, { name = "x", kind = "int", width = 4, distinct = 1000 }]~[[table]]~name = "b"~rows = 1000~pages = 20~column = [{ name = "x", kind = "int", width = 4, distinct = 1000 }, { name = "y", kind = "int", width = 4, distinct = 10 }]~[[table]]~name = "c"~rows = 1000~pages = 20~column = [{ name = "y", kind = "int", width = 4, distinct = 10 }, { name = "x", kind = "int", width = 4, distinct = 1000 }]~[[table]]~name = "d"~rows = 1000~pages = 20~column = [{ name = "x", kind = "int", width = 4, distinct = 1000 }, { name = "k", kind = "int", width = 4, distinct = 1000 }]~
1000 4000 10 5 5 8 5~t 1000 20~c Int 4 Some(1000) None None~v 1000 20~d Int 4 Some(1000) None None~e Int 4 Some(1000) None None~|version = 1~[[table]]~name = "t"~rows = 1000~pages = 20~column = [{ name = "c", kind = "int", width = 4, distinct = 1000 }]~[[table]]~name = "v"~rows = 1000~pages = 20~column = [{ name = "d", kind = "int", width = 4, distinct = 1000 }, { name = "e", kind = "int", width = 4, distinct = 1000 }]~
1 2 3 4 5 6 7~customer 15000 400~c_id Int 8 Some(15000) Some(-5) Some(15000)~c_segment Text 10 Some(5) None None~c_name Text 25 Some(15000) None None~customer_pk of 0: 0 unique~orders 150000 3000~o_id Int 8 Some(150000) None None~o_cust Int 8 Some(10000) None None~o_date Date 4 Some(2400) Some(8035) Some(10591)~orders_pk of 1: 0 unique~by_date of 1: 2 1 clustered~lineitem 600000 15000~l_order Int 8 Some(150000) None None~l_price Int 8 None None None~l_ship Date 4 None Some(0) None~|version = 1~note = "passed over"~[rates]~group_cpu = 7~seq_page = 1~rand_page = 2~row_cpu = 3~sort_cpu = 4~merge_cpu = 5~hash_cpu = 6~[[table]]~name = "customer"~rows = 15000~pages = 400~column = [{ name = "c_id", kind = "int", width = 8, distinct = 15000, low = -5, high = 15000 }, { name = "c_segment", kind = "text", width = 10, distinct = 5, low = 1.5, high = [] }, { name = "c_name", kind = "text", width = 25, distinct = 15000 }]~index = [{ name = "customer_pk", keys = ["C_ID"], unique = true, clustered = false }]~[[table]]~name = "orders"~rows = 150000~pages = 3000~column = [{ name = "o_id", kind = "int", width = 8, distinct = 150000 }, { name = "o_cust", kind = "int", width = 8, distinct = 10000 }, { name = "o_date", kind = "date", width = 4, distinct = 2400, low = "1992-01-01", high = "1998-12-31" }]~index = [{ name = "orders_pk", keys = ["o_id"], unique = true }, { name = "by_date", keys = ["o_date", "o_cust"], clustered = true }]~[[table]]~name = "lineitem"~rows = 600000~pages = 15000~column = [{ name = "l_order", kind = "int", width = 8, distinct = 150000 }, { name = "l_price", kind = "int", width = 8 }, { name = "l_ship", kind = "date", width = 4, low = "1970-01-01" }]~
name twice 2 Table 0 Name 0|version = 1~[[table]]~name = "t"~rows = 1~pages = 1~column = [{ name = "c", kind = "int", width = 4 }]~[[table]]~name = "T"~
name twice 1 Column 2 Name 0|version = 1~[[table]]~name = "t"~rows = 1~pages = 1~column = [{ name = "Ab", kind = "int", width = 4 }, { name = "aB" }]~
name twice 1 Index 2 Name 0|version = 1~[[table]]~name = "t"~rows = 1~pages = 1~column = [{ name = "c", kind = "int", width = 4 }]~index = [{ name = "i", keys = ["c"] }, { name = "I" }]~
name twice 1 Index 1 Keys 2|version = 1~[[table]]~name = "t"~rows = 1~pages = 1~column = [{ name = "c", kind = "int", width = 4 }]~index = [{ name = "i", keys = ["c", "C"] }]~
unknown name 1 Index 1 Keys 2|version = 1~[[table]]~name = "t"~rows = 1~pages = 1~column = [{ name = "c", kind = "int", width = 4 }]~index = [{ name = "i", keys = ["C", "d"] }]~
unknown name 1 Index 1 Keys 1|version = 1~[[table]]~name = "t"~rows = 1~pages = 1~column = [{ name = "c", kind = "int", width = 4 }]~index = [{ name = "i", keys = ["a b"] }]~
out of range 1 Index 2 Clustered 0|version = 1~[[table]]~name = "t"~rows = 1~pages = 1~column = [{ name = "c", kind = "int", width = 4 }]~index = [{ name = "i", keys = ["c"], clustered = true }, { name = "j", keys = ["c"], clustered = true }]~
out of range 0 Whole 0 Version 0|version = 3~rates = 7~
out of range 0 Whole 0 Version 0|rates = 7~version = 3~
1000 4000 10 5 5 8 5~t 1 1~c Int 4 None None None~|version = 1~[[table]]~name = "t"~rows = 1~pages = 1~may_cluster = 7~column = [{ name = "c", kind = "int", width = 4, bounds = 7 }]~
1000 4000 10 5 5 8 5~t 1 1 may cluster~c Int 4 None Some(5) Some(6) 0 10 20 1000~d Int 4 None None None~|version = 2~[[table]]~name = "t"~rows = 1~pages = 1~may_cluster = true~column = [{ name = "c", kind = "int", width = 4, bounds = [0, 10, 20, 1000], low = 5, high = 6 }, { name = "d", kind = "int", width = 4 }]~
1000 4000 10 5 5 8 5~t 1 1~c Date 4 None None None -1 0 0 10957~d Text 4 None None None~|version = 2~[[table]]~name = "t"~rows = 1~pages = 1~may_cluster = false~column = [{ name = "c", kind = "date", width = 4, bounds = ["1969-12-31", "1970-01-01", "1970-01-01", "2000-01-01"] }, { name = "d", kind = "text", width = 4, bounds = 7 }]~
out of range 1 Table 0 Pages 0|version = 2~[[table]]~may_cluster = 7~name = "t"~rows = 1~pages = -1~
wrong kind 1 Table 0 MayCluster 0|version = 2~[[table]]~name = "t"~rows = 1~pages = 1~may_cluster = 7~column = 7~
out of range 1 Column 1 High 0|version = 2~[[table]]~name = "t"~rows = 1~pages = 1~column = [{ name = "c", kind = "int", width = 4, bounds = 7, low = 5, high = 4 }]~
wrong kind 1 Column 1 Bounds 0|version = 2~[[table]]~name = "t"~rows = 1~pages = 1~column = [{ bounds = 7, name = "c", kind = "int", width = 4 }, 7]~
out of range 1 Column 1 Bounds 0|version = 2~[[table]]~name = "t"~rows = 1~pages = 1~column = [{ name = "c", kind = "int", width = 4, bounds = ["x"] }]~
out of range 1 Column 1 Bounds 2|version = 2~[[table]]~name = "t"~rows = 1~pages = 1~column = [{ name = "c", kind = "int", width = 4, bounds = [5, 4, "x"] }, 7]~
wrong kind 1 Column 1 Bounds 2|version = 2~[[table]]~name = "t"~rows = 1~pages = 1~column = [{ name = "c", kind = "int", width = 4, bounds = [5, "x", 4] }, 7]~
out of range 1 Column 1 Bounds 3|version = 2~[[table]]~name = "t"~rows = 1~pages = 1~column = [{ name = "c", kind = "int", width = 4, bounds = [0, 20, 10] }]~
out of range 0 Rates 0 RandPage 0|version = 1~[rates]~merge_cpu = 1.0~rand_page = -1~
out of range 0 Rates 0 RandPage 0|version = 1~[rates]~rand_page = -1~merge_cpu = 1.0~
wrong kind 0 Rates 0 MergeCpu 0|version = 1~table = [7]~rates = { merge_cpu = 1.0 }~
missing 1 Table 0 Name 0|version = 1~[[table]]~rows = 1.0~pages = -1~
wrong kind 1 Table 0 Rows 0|version = 1~[[table]]~name = "t"~rows = 1000.0~pages = -1~
wrong kind 1 Table 0 Rows 0|version = 1~[[table]]~pages = -1~rows = 1000.0~name = "t"~
out of range 1 Table 0 Pages 0|version = 1~[[table]]~name = "t"~rows = 1~pages = -1~column = 7~
out of range 1 Column 1 Width 0|version = 1~[[table]]~name = "t"~rows = 1~pages = 1~index = 7~column = [{ distinct = 0, width = 0, kind = "int", name = "c" }, 7]~
wrong kind 1 Column 2 Itself 0|version = 1~[[table]]~name = "t"~rows = 1~pages = 1~index = 7~column = [{ width = 1, kind = "int", name = "c" }, 7]~
out of range 1 Index 1 Keys 0|version = 1~[[table]]~name = "t"~rows = 1~pages = 1~column = [{ width = 1, kind = "int", name = "c" }]~index = [{ clustered = 7, unique = 7, keys = [], name = "i" }]~
wrong kind 1 Index 1 Unique 0|version = 1~[[table]]~name = "t"~rows = 1~pages = 1~column = [{ width = 1, kind = "int", name = "c" }]~index = [{ clustered = 7, unique = 7, keys = ["c"], name = "i" }]~
no TOML document|version = 2~version = 2~
no TOML document|version = 99999999999999999999~
no TOML document|version = 1 # ^"#;

/// How many tables there are, of how many columns and indexes each, of how many keys each, and what is answered.
const LENGTHS: &str = "0|0|0|0|accepted
1|200|1|8|accepted
1|201|1|8|out of range 1 Table 0 Columns 0
1|0|1|8|out of range 1 Table 0 Columns 0
1|9|1|9|out of range 1 Index 1 Keys 0
1|9|1|0|out of range 1 Index 1 Keys 0
200|1|5|1|accepted
201|1|0|0|out of range 0 Table 0 Itself 0
3|1|333|1|accepted
4|1|333|1|out of range 4 Index 2 Itself 0
6|1|200|1|out of range 6 Index 1 Itself 0";

/// What is answered to a text.
fn answer(rt: &impl Abort, alloc: Global, text: &str) -> String {
    let text = written(rt, alloc, text);
    let told = match read_catalogue(alloc, text.as_slice()) {
        Ok(catalogue) => shown(alloc, &catalogue),
        Err(fault) => fault_shown(alloc, fault),
    };
    told.expect(rt, "memory")
}

/// Whether a text is accepted, or its fault.
fn verdict(rt: &impl Abort, alloc: Global, text: &str) -> String {
    let text = written(rt, alloc, text);
    let told = match read_catalogue(alloc, text.as_slice()) {
        Ok(_) => String::from_str(alloc, "accepted"),
        Err(fault) => fault_shown(alloc, fault),
    };
    told.expect(rt, "memory")
}

/// Compares the verdict on a text.
fn judge(rt: &impl Abort, alloc: Global, text: &str, wanted: &str) {
    let found = verdict(rt, alloc, text);
    assert!(rt; found.as_str() == wanted, "in {text}");
}

#[test]
fn what_texts_describe(rt: HostRuntime) {
    for case in TEXTS.lines() {
        let (wanted, text) = case.split_once('|').expect(&rt, "a bar");
        let found = answer(&rt, rt.alloc(), text);
        assert!(rt; found.as_str() == wanted, "in {text}");
    }
}

#[test]
fn kinds_of_values_and_keys_left_out(rt: HostRuntime) {
    let alloc = rt.alloc();
    for case in KEYS.lines() {
        let (path, wanted, left_out, front, key) = parts(case).expect(&rt, "five parts");
        let (open, close) = key.split_once('@').expect(&rt, "a place for a value");
        let fault = format!(in alloc; "wrong kind {path}").expect(&rt, "memory");
        for row in VALUES.lines() {
            let (kind, value) = row.split_once('|').expect(&rt, "a bar");
            let text = format!(in alloc; "{front}{open}{value}{close}~").expect(&rt, "memory");
            if kind != wanted {
                judge(&rt, alloc, text.as_str(), fault.as_str());
            }
        }
        if left_out == "missing" {
            let fault = format!(in alloc; "missing {path}").expect(&rt, "memory");
            judge(&rt, alloc, front, fault.as_str());
        } else if left_out == "accepted" {
            judge(&rt, alloc, front, left_out);
        }
    }
}

#[test]
fn ends_of_ranges(rt: HostRuntime) {
    let alloc = rt.alloc();
    for case in RANGES.lines() {
        let (path, front, key, inside, outside) = parts(case).expect(&rt, "five parts");
        for value in inside.split(';') {
            let text = format!(in alloc; "{front}{key} = {value}~").expect(&rt, "memory");
            judge(&rt, alloc, text.as_str(), "accepted");
        }
        let fault = format!(in alloc; "out of range {path}").expect(&rt, "memory");
        for value in outside.split(';') {
            let text = format!(in alloc; "{front}{key} = {value}~").expect(&rt, "memory");
            judge(&rt, alloc, text.as_str(), fault.as_str());
        }
    }
}

/// Writes a table of that many columns and indexes, whose indexes have that many keys.
fn add_table(
    text: &mut String,
    number: u32,
    columns: u32,
    indexes: u32,
    keys: u32,
) -> Result<(), AllocError> {
    write!(
        text,
        "[[table]]~name = \"t{number}\"~rows = 1~pages = 1~column = ["
    )?;
    for column in 0..columns {
        write!(
            text,
            "{{ name = \"c{column}\", kind = \"int\", width = 4 }}, "
        )?;
    }
    text.push_str("]~index = [")?;
    for index in 0..indexes {
        write!(text, "{{ name = \"i{index}\", keys = [")?;
        for key in 0..keys {
            write!(text, "\"c{key}\", ")?;
        }
        text.push_str("] }, ")?;
    }
    text.push_str("]~")
}

/// A number.
fn number(rt: &impl Abort, text: &str) -> u32 {
    text.parse::<u32>().expect(rt, "a number")
}

#[test]
fn lengths_of_lists(rt: HostRuntime) {
    for case in LENGTHS.lines() {
        let (tables, columns, indexes, keys, wanted) = parts(case).expect(&rt, "five parts");
        let columns = number(&rt, columns);
        let indexes = number(&rt, indexes);
        let keys = number(&rt, keys);
        let mut text = String::from_str(rt.alloc(), "version = 1~").expect(&rt, "memory");
        for table in 0..number(&rt, tables) {
            add_table(&mut text, table, columns, indexes, keys).expect(&rt, "memory");
        }
        judge(&rt, rt.alloc(), text.as_str(), wanted);
    }
}

#[test]
fn lengths_of_histograms(rt: HostRuntime) {
    let alloc = rt.alloc();
    let front =
        r#"version = 2~[[table]]~name = "t"~rows = 1~pages = 1~column = [{ name = "c", kind = "int", width = 4, bounds = ["#;
    for (ends, wanted) in [
        (2, "accepted"),
        (257, "accepted"),
        (258, "out of range 1 Column 1 Bounds 0"),
    ] {
        let mut text = String::from_str(alloc, front).expect(&rt, "memory");
        for end in 0..ends {
            write!(text, "{end}, ").expect(&rt, "memory");
        }
        text.push_str("] }]~").expect(&rt, "memory");
        judge(&rt, alloc, text.as_str(), wanted);
    }
}
