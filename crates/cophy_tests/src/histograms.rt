//! Prices by histograms, from words and files to bytes. Each was computed by hand.
use crate::runs::compare_all;

/// Lines as those of other runs. The column's histogram has the ends 0, 10, 20 and 1000.
const SHARES: &str =
    r#"0|cost CAT LOAD|HIST 2|SELECT c FROM t WHERE c < 15 -- half of the rows: two pages of the index, 500 rows||statement 1 weight 1 cost 7000~total 7000~
0|cost CAT LOAD|HIST|SELECT c FROM t WHERE c < 15 -- version 1 passes the histogram over: a third of the rows||statement 1 weight 1 cost 5340~total 5340~
0|cost CAT LOAD|HIST 2|SELECT c FROM t WHERE c > 20 -- a third of the rows||statement 1 weight 1 cost 5340~total 5340~
0|cost CAT LOAD|HIST 2|SELECT c FROM t WHERE c BETWEEN 5 AND 10 -- a sixth: one page, 167 rows||statement 1 weight 1 cost 2670~total 2670~
0|cost CAT LOAD|=version = 2~[[table]]~name = "t"~rows = 1000~pages = 20~column = [{ name = "c", kind = "date", width = 4, bounds = ["2000-01-01", "2000-01-11", "2000-01-21", "2002-09-27"] }]~index = [{ name = "t_c", keys = ["c"] }]~|SELECT c FROM t WHERE c < DATE '2000-01-16' -- half of the rows||statement 1 weight 1 cost 7000~total 7000~
5|cost CAT LOAD|=version = 2~[[table]]~name = "t"~rows = 1000~pages = 20~column = [{ name = "c", kind = "int", width = 4, distinct = 1000, bounds = [0, 20, 10] }]~index = [{ name = "t_c", keys = ["c"] }]~|SELECT c FROM t||refused: out of range table[1].column[1].bounds[3]~"#;

#[test]
fn ranges_are_priced_by_shares(rt: HostRuntime) {
    compare_all(&rt, rt.alloc(), SHARES);
}
