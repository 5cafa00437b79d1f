mod budgets;
mod leases;
mod quotas;
mod windows;
