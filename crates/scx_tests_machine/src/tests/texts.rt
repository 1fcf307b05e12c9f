//! Policy and workload files.

/// Slices of two milliseconds, in order of arrival.
pub(crate) const SHORT_SLICES: &str = "
[code]
init = '''r1 = 0\ncall 1001\nexit'''
enqueue = '''r4 = r2\nr2 = 0\nr3 = 2000000\ncall 1002\nexit'''
dispatch = '''r1 = 0\ncall 1004\nexit'''
";

/// Tasks a and b on one CPU, for four milliseconds.
pub(crate) const TWO_TASKS: &str = "
cpus = 1
ms = 4
group = [{ name = 'g' }]
task = [{ name = 'a', group = 'g' }, { name = 'b', group = 'g' }]
";
