//! Catalogues and a workload that several tests read.

/// Two tables. Sorted, a scan of either costs 80000: 30000 for the heap and 50000 for the sort. The index on c, of 3 pages,
/// is candidate 1, and costs 13000; that on d and e, of 4 pages, is candidate 2, and costs 14000.
pub(crate) const TWO: &str = r#"version = 1
[[table]]
name = "t"
rows = 1000
pages = 20
column = [{ name = "c", kind = "int", width = 4, distinct = 1000 }]
[[table]]
name = "v"
rows = 1000
pages = 20
column = [{ name = "d", kind = "int", width = 4, distinct = 1000 }, { name = "e", kind = "int", width = 4, distinct = 1000 }]"#;

/// Customers, their orders and the orders' items, with an index on the first two primary keys.
pub(crate) const SHOP: &str = r#"version = 1
[[table]]
name = "customer"
rows = 15000
pages = 400
column = [{ name = "c_id", kind = "int", width = 8 }, { name = "c_segment", kind = "text", width = 10 }, { name = "c_name", kind = "text", width = 25 }]
index = [{ name = "customer_pk", keys = ["c_id"], unique = true }]
[[table]]
name = "orders"
rows = 150000
pages = 3000
column = [{ name = "o_id", kind = "int", width = 8 }, { name = "o_cust", kind = "int", width = 8 }, { name = "o_date", kind = "date", width = 4 }]
index = [{ name = "orders_pk", keys = ["o_id"], unique = true }]
[[table]]
name = "lineitem"
rows = 600000
pages = 15000
column = [{ name = "l_order", kind = "int", width = 8 }, { name = "l_price", kind = "int", width = 8 }, { name = "l_ship", kind = "date", width = 4 }]"#;

/// Open orders of a segment by their worth, as in TPC-H's third query.
pub(crate) const WORTH: &str =
    "SELECT o.o_id, o.o_date, sum(l.l_price) AS revenue FROM customer c JOIN orders o ON c.c_id = o.o_cust JOIN lineitem l ON l.l_order = o.o_id WHERE c.c_segment = 'BUILDING' AND o.o_date BETWEEN DATE '1995-01-01' AND DATE '1995-03-31' GROUP BY o.o_id, o.o_date ORDER BY revenue DESC, o.o_date LIMIT 10;";
